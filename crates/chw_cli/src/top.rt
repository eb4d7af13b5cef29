//! The one call that does all that the program does.
ghost use Rattle.std.specs.Prelude.{◌≡◌};
ghost use Rattle.chw_base.specs.Faults.{Rose};
ghost use Rattle.chw_cli.specs.Delivery.{WritesAll, StopsAt};
ghost use Rattle.chw_cli.specs.Exact.{IsExact};
ghost use Rattle.chw_cli.specs.Outcome.{Outcome, Told};
ghost use Rattle.chw_cli.specs.Reads.{Asks};

use crate::answer::answer;
use crate::deliver::deliver;
use crate::refusal::Refusal;
use crate::status::Status;
use crate::tell::tell;
use answers::compiled::laws::nothing_refuses_a_compile;
use answers::sim_answer::laws::refusals;
use chw_base::{Name, Or, Shelf, Sink};
use chw_check::laws::typed_has_no_fault;
use chw_lexer::laws::{no_fault, one_splitting};
use chw_norm::laws::{nothing_refuses_a_normal_run, one_last_state};
use chw_parser::laws::one_tree;
use chw_resolve::laws::well_named_has_no_fault;
use chw_words::laws::words_are_one_command;
use data_kinds::kind_laws::one_program;
use run_answer::laws::nothing_refuses_a_run;
use std::alloc::Global;

/// Does what the words ask for: reads the files from the shelf, and writes the answer to `out`, or
/// one line to `err`.
///
/// The answer is whole before its first byte is written. It is written in pieces of 1,024 bytes, of
/// which the last may be shorter. A fault of `err` leaves the status as it is.
pub fn top<F: Shelf, K: Sink, E: Sink>(
    alloc: Global,
    words: &[Name],
    shelf: &mut F,
    out: &mut K,
    err: &mut E,
) -> Status
    ensures outcome { Outcome (Asks F.fetch_gives F.told F.faults words.now shelf.old shelf.new) words.now (Rose (K.faults out.old) (K.faults out.new))
        (out.new ≡ out.old) (err.new ≡ err.old)
        (λ bytes. WritesAll K.put_gives K.written K.faults bytes out.old out.new)
        (λ answer bytes. StopsAt K.put_gives K.written answer bytes out.old out.new)
        (λ refusal status. Told E.put_gives E.written E.faults refusal err.old err.new status)
        result }
    ensures exact { IsExact (F.told shelf.old) words.now (Rose (F.faults shelf.old) (F.faults shelf.new)) (Rose (K.faults out.old) (K.faults out.new)) result }
{
    words_are_one_command();
    no_fault();
    one_splitting();
    one_tree();
    well_named_has_no_fault();
    one_program();
    typed_has_no_fault();
    nothing_refuses_a_normal_run();
    one_last_state();
    nothing_refuses_a_compile();
    nothing_refuses_a_run();
    refusals();
    match answer(alloc, words, shelf) {
        Ok(bytes) => match deliver(alloc, bytes.as_slice(), out) {
            Ok(()) => Status::Ok,
            Err(Or::Fault(_)) => tell(alloc, &Refusal::Write, err),
            Err(Or::Memory) => tell(alloc, &Refusal::Memory, err),
        },
        Err(refusal) => tell(alloc, &refusal, err),
    }
}
