//! Binary images of schedules: `encode` writes one, `load` reads one or names its first fault.
//!
//! All numbers are big endian and unsigned. There are two versions. `encode` writes the second; `load` takes both.
//!
//! ```text
//! field                         bytes             OTS1   OTS2   faults, in the order of checking
//! magic OTS1 or OTS2            4                  yes    yes   Cut, BadMagic
//! clients                       2                  yes    yes   Cut, BadNumber (not 1 to 64)
//! present                       2                   no    yes   Cut, BadNumber (above clients)
//! count of start characters     4                  yes    yes   Cut, TooLong (above 40,000)
//! each character                4 each             yes    yes   Cut, BadScalar
//! count of instructions         4                  yes    yes   Cut, TooMany (above 100,000)
//! each instruction:
//!   byte 01 Edit                1, client 2, operation          Cut, BadOpcode; Cut, BadClient
//!   byte 02 Take, 03 Deliver,
//!     04 Acknowledge, 05 Read   1, client 2                     the same
//!   byte 06 ReadServer          1                               the same
//!   byte 07 Join                1, client 2         no    yes   the same
//! an operation: the count of its components, 4, and each:       Cut
//!   byte 10 retain, 12 delete   1, length 4                     Cut, BadOpcode, NotNormal; Cut, BadNumber (0), TooLong
//!   byte 11 insert              1, length 4, each character 4   the same
//! the end                                                       Trailing
//! ```
//!
//! (Bytes are hexadecimal, lengths of fields decimal.) In the first version all clients are present. An operation stands
//! in normal form: no two components of one kind in a row, no insert directly after a delete, none of length 0. So a
//! schedule has one image per version, no image is a proper front of another, and different schedules have different
//! images (`images_differ`).
//!
//! An image is read from left to right, and the first fault counts. A field is first checked for being whole (`Cut`, at
//! the number of bytes given) and then for its value, at the offset of its first byte. `Memory` names the field for which
//! a growth was refused; no field before it is at fault. Loading and encoding take time linear in the bytes, and no room
//! is reserved by a count alone.
//!
//! The definitions of the contracts: `specs/Spelling.antt` (`bytes1`, `bytes2`, `IsImageOf`: the bytes of a schedule, one
//! field after the other), `specs/Reading.antt` (`image_of`: the same from left to right, with the first fault) and
//! `specs/Layout.antt` (`fault_of`: the first fault again, from the fields alone: how wide each is, which values are allowed,
//! and what comes after it). That the two faults are one is a law, `faults_agree`. Begin reading at `loading.rt`, from its
//! end.
//!
//! Why bytes are no image, in words (`refusal.rt`, `whole.rt`, `words.rt`): at which field, what stands there, and what is wanted.
//!
//! ```text
//!    otbench: byte 33: BadOpcode                                       load
//!      instruction 4, component 2, kind: found 0x2a; wanted 0x10 (retain), 0x11 (insert) or 0x12 (delete)
//!      └── Place                       └── Reason
//! ```
//!
//! `specs/Fields.antt` has the fields of `Layout` again, each with its [`Place`] and with what is wanted there. `refusal_of` is the first field from
//! the left that is cut or whose value is not allowed; that it is the field of `load`'s fault is a law, [`faults_are_those_of_the_layout`].
//! [`first_refusal`] goes over the bytes once, with counters, and takes no memory; [`first_words`] gives the line of a refusal
//! (`specs/Words.antt`).
#![tactic(auto)]

mod edits;
mod fault;
mod laws;
mod loading;
mod named_fields;
mod named_numbers;
mod named_operations;
mod reading;
mod refusal;
mod shape;
mod spot;
mod whole;
mod words;
mod writing;

pub use fault::{ImageFault, Kind};
pub use laws::faults_are_those_of_the_layout;
pub use loading::{faults_agree, images_differ, load};
pub use refusal::{Place, Reason, Refusal, Text, Wanted};
pub use whole::first_refusal;
pub use words::{first_words, refusal_text};
pub use writing::encode;
