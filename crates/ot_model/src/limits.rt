//! Limits of machines and sessions, and all limits as numbers.

ghost use Rattle.std.specs.Prelude.{◌≡◌};
ghost use Rattle.ot_client.specs.declared.TheConstants.{REVISION_LIMIT};
ghost use Rattle.ot_isa.specs.declared.builder.TheConstants.{CLIENT_LIMIT, INSTR_LIMIT, START_LIMIT};
ghost use Rattle.ot_isa.specs.declared.tagging.TheConstants.{INSERTED_LIMIT};
ghost use Rattle.ot_model.specs.declared.limits.TheConstants.{SESSION_LIMIT, STEP_LIMIT};
ghost use Rattle.ot_server.specs.declared.TheConstants.{LOG_LIMIT};
ghost use Rattle.ot_operation.specs.declared.TheConstants.{LIMIT};

/// How many instructions a machine performs at most.
pub const STEP_LIMIT: u32 = 1_000_000;

/// How many steps a session of a client off the machine has at most.
pub const SESSION_LIMIT: usize = 64;

/// The limits as numbers: definitions and contracts name the constants, and here they stand beside what they are.
pub fn limits()
    ensures lengths { LIMIT ≡ 1000000 }
    ensures revisions { REVISION_LIMIT ≡ 1000000 }
    ensures entries { LOG_LIMIT ≡ 1000000 }
    ensures steps { STEP_LIMIT ≡ 1000000 }
    ensures instructions { INSTR_LIMIT ≡ 100000 }
    ensures start { START_LIMIT ≡ 40000 }
    ensures inserted { INSERTED_LIMIT ≡ 15000 }
    ensures clients { CLIENT_LIMIT ≡ 64 }
    ensures session { SESSION_LIMIT ≡ 64 }
{}
