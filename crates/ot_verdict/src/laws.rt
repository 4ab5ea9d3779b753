//! The laws of what is still to arrive, each as the contract of a function that does nothing: a proof that calls one has its law.

ghost use Rattle.ot_verdict.specs.First.{CompletionTakes, NamedAreTaken};
ghost use Rattle.ot_verdict.specs.Laws.{ArrivalsEnd, CompletionEnds, EveryOrderEnds, WhatWaitsCanCome};

/// Where at most one client has edits that the server has not taken: whatever comes but an edit, takes, receipts, joins and reads in any order, once everything
/// has arrived all is quiet, and every document is the one that the verdict says.
pub fn every_order_ends()
    ensures { EveryOrderEnds }
{}

/// What `ot_generate`'s `complete` appends is one of these orders.
pub fn completion_ends()
    ensures { CompletionEnds }
{}

/// Arrivals alone, takes and receipts in any order, come to an end, and they end where everything has arrived: no more than `ot_generate`'s `left` of them can come, and
/// what has not arrived can arrive next, unless the machine has performed 1,000,000 instructions.
pub fn arrivals_end()
    ensures few { ArrivalsEnd }
    ensures next { WhatWaitsCanCome }
{}

/// The first message that is taken by what `ot_generate`'s `complete` appends is that of the first client, by number, whose message is on its way; where there is none,
/// that of the first client with a buffer. No message is taken if there is no such client.
pub fn completion_takes()
    ensures { CompletionTakes }
{}

/// Whatever comes but an edit, in any order: until everything has arrived, the server takes a message of each client that has edits that it has not taken, and of no other.
pub fn named_are_taken()
    ensures { NamedAreTaken }
{}
