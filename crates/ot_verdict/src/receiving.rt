//! What a client's list becomes once it has received everything on its way to it.

ghost use Rattle.std.specs.Prelude.{◌≡◌, suc, slice_get, true, IfOk, Some};
ghost use Rattle.ot_client.specs.Client.{state_of};
ghost use Rattle.ot_machine.specs.Effects.{client_in};
ghost use Rattle.ot_machine.specs.Readers.{ClientHas};
ghost use Rattle.ot_model.specs.Sound.{IsSound};
ghost use Rattle.ot_model.specs.Table.{is_joined};
ghost use Rattle.ot_verdict.specs.Ending.{received};
ghost use Rattle.ot_verdict.specs.Receiving.{IsReceiving};

use ot_client::Client;
use ot_isa::Tagged;
use ot_machine::Machine;
use ot_server::Entry;
use ot_text::Doc;
use std::alloc::AllocError;

// The client after the next entry of the log, its own or another's, and its list too. If memory runs out, the list may be changed or not.
fn receive(
    machine: &Machine,
    number: u16,
    client: Client<Tagged>,
    list: &mut Doc<Tagged>,
    entry: &Entry<Tagged>,
) -> Result<Client<Tagged>, AllocError>
    requires receiving { IsReceiving machine.now number (state_of client) list.old }
    requires next { slice_get machine.now.log (state_of client).revision ≡ Some entry.now }
    ensures receiving { IfOk result (λ next. IsReceiving machine.now number (state_of next) list.new) }
    ensures revision { IfOk result (λ next. (state_of next).revision ≡ suc (state_of client).revision) }
{
    if entry.maker() == number {
        return match client.acknowledge() {
            Ok((next, _sent)) => Ok(next),
            Err(_client) => Err(AllocError),
        };
    }
    match client.deliver(entry.operation().copy()?) {
        Ok((next, applied)) => {
            list.change(&applied)?;
            Ok(next)
        }
        Err(_back) => Err(AllocError),
    }
}

/// The list of the client, which has joined, once it has received everything on its way to it. The machine stays as it is.
pub(crate) fn received(machine: &Machine, client: u16) -> Result<Doc<Tagged>, AllocError>
    requires sound { IsSound machine.now }
    requires joined { ClientHas machine.now client (λ x. is_joined x.phase) true }
    ensures { IfOk result (λ list. list ≡ received machine.now client (client_in machine.now client)) }
{
    let mut list = machine.document(client).copy()?;
    let mut seat = machine.client(client).copy()?;
    for number in machine.revision(client) as usize..machine.server_revision() {
        let Some(entry) = machine.entry(number) else {
            unreachable!()
        };
        seat = receive(machine, client, seat, &mut list, entry)?;
    }
    Ok(list)
}
