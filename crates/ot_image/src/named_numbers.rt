//! A field's number, of a place that is named.

ghost use Rattle.std.specs.Prelude.{◌≡◌};
ghost use Rattle.std.specs.Int.{w8, w16, w32};
ghost use Rattle.ot_image.specs.Fields.{cut_of, number_at, refused};
ghost use Rattle.ot_image.specs.Reads.{IsRead, seen};

use crate::fault::{ImageFault, Kind};
use crate::refusal::{Place, Reason, Refusal, Wanted};
use crate::spot::Spot;

// The bytes end within a field of so many.
fn cut_off(place: Place, size: usize, spot: Spot<'_>) -> Refusal
    ensures { result ≡ cut_of place size (seen spot.entry) }
{
    Refusal {
        fault: ImageFault {
            at: spot.at + spot.rest.len(),
            kind: Kind::Cut,
        },
        place,
        reason: Reason::Cut(spot.rest.len(), size),
    }
}

/// The value that stands at this spot is not allowed.
pub fn refusal_at(place: Place, spot: Spot<'_>, value: u32, kind: Kind, wanted: Wanted) -> Refusal
    ensures { result ≡ refused place (seen spot.entry) value (record { kind = kind; wanted = wanted }) }
{
    Refusal {
        fault: ImageFault { at: spot.at, kind },
        place,
        reason: Reason::Value(value, wanted),
    }
}

/// A byte.
#[tactic(auto, unfolding(crate::specs::Fields::number_at))]
pub fn u8_at<'a>(place: Place, spot: Spot<'a>) -> Result<(u8, Spot<'a>), Refusal>
    ensures { IsRead (λ x. (x.0, seen x.1)) result (number_at place w8 (seen spot.entry)) }
{
    if spot.rest.len() < 1 {
        return Err(cut_off(place, 1, spot));
    }
    let (front, rest) = spot.rest.split_at(1);
    let number = u8::from_be_bytes([front[0]]);
    let at = spot.at + 1;
    Ok((number, Spot { at, rest }))
}

/// Two bytes as a number.
#[tactic(auto, unfolding(crate::specs::Fields::number_at))]
pub fn u16_at<'a>(place: Place, spot: Spot<'a>) -> Result<(u16, Spot<'a>), Refusal>
    ensures { IsRead (λ x. (x.0, seen x.1)) result (number_at place w16 (seen spot.entry)) }
{
    if spot.rest.len() < 2 {
        return Err(cut_off(place, 2, spot));
    }
    let (front, rest) = spot.rest.split_at(2);
    let number = u16::from_be_bytes([front[0], front[1]]);
    let at = spot.at + 2;
    Ok((number, Spot { at, rest }))
}

/// Four bytes as a number.
#[tactic(auto, unfolding(crate::specs::Fields::number_at))]
pub fn u32_at<'a>(place: Place, spot: Spot<'a>) -> Result<(u32, Spot<'a>), Refusal>
    ensures { IsRead (λ x. (x.0, seen x.1)) result (number_at place w32 (seen spot.entry)) }
{
    if spot.rest.len() < 4 {
        return Err(cut_off(place, 4, spot));
    }
    let (front, rest) = spot.rest.split_at(4);
    let number = u32::from_be_bytes([front[0], front[1], front[2], front[3]]);
    let at = spot.at + 4;
    Ok((number, Spot { at, rest }))
}
