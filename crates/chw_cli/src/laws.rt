//! The laws of what is answered, each as the contract of a call that does nothing.
ghost use Rattle.std.specs.Prelude.{◌≡◌, ℕ, List};
ghost use Rattle.chw_base.specs.Faults.{Rose};
ghost use Rattle.chw_cli.specs.Delivery.{WritesAll, StopsAt};
ghost use Rattle.chw_cli.specs.Descriptions.{CompilableIsCompiled};
ghost use Rattle.chw_cli.specs.Exact.{OneNetIn, OneTextIn};
ghost use Rattle.chw_cli.specs.Outcome.{Outcome, Told};
ghost use Rattle.chw_cli.specs.Reads.{Asks};
ghost use Rattle.chw_cli.specs.declared.status.Status.{Status};
ghost use Rattle.chw_words.specs.Commands.{IsCommand};
ghost use Rattle.chw_words.specs.declared.command.Command.TheVariants.{Make};
ghost use Rattle.chw_cli.specs.MakeLaws.{HaveOneOfTwoStatuses, IsOfMake, MadeTextsAreTyped, MakeIsRefusedForItsProgram, WordsAreRefusedForTheProgram};
ghost use Rattle.chw_cli.specs.Waves.{WrittenWavesAreRead};

use answers::compiled::laws::{nothing_refuses_a_compile, one_compiled, small_ends_compile};
use answers::make_answer::laws::made_stimuli;
use answers::sim_answer::laws::{refusals, waves_are_read};
use chw_base::{Shelf, Sink};
use chw_check::laws::typed_has_no_fault;
use chw_lexer::laws::{no_fault, one_splitting};
use chw_parser::laws::one_tree;
use chw_resolve::laws::well_named_has_no_fault;
use chw_words::laws::words_are_one_command;
use data_kinds::kind_laws::one_program;
use make_laws::laws::{
    made_programs_take_words, made_texts_are_descriptions, made_texts_have_the_tree,
};
use make_typed::laws::{made_names_are_known, made_programs_are_there, made_programs_are_typed};
use share_laws::laws::one_shared_net;

/// The text that `make` makes is a description that is typed.
pub fn made_texts_are_typed()
    ensures { MadeTextsAreTyped }
{
    made_texts_are_descriptions();
    made_texts_have_the_tree();
    made_names_are_known();
    made_programs_are_there();
    made_programs_are_typed();
}

/// The text and the stimulus that `make` makes are never at fault, nor are the names and the types
/// of the text: it is refused only because its program can't be compiled. Such a refusal has one of
/// two statuses.
pub fn make_is_refused_for_its_program()
    ensures answer { MakeIsRefusedForItsProgram }
    ensures words { WordsAreRefusedForTheProgram }
    ensures statuses { HaveOneOfTwoStatuses }
{
    words_are_one_command();
    one_splitting();
    no_fault();
    one_tree();
    made_texts_are_descriptions();
    made_texts_have_the_tree();
    made_programs_take_words();
    made_names_are_known();
    made_programs_are_typed();
    well_named_has_no_fault();
    typed_has_no_fault();
    made_stimuli();
    refusals();
}

/// A run of `make N` ends with the status of an answer, of a broken restriction, of a failed write,
/// of a spent budget or of wanting memory: never with that of words that are no command, of a file,
/// of a stimulus or of a Verilog text.
pub fn make_ends_with_few_statuses<F: Shelf, K: Sink, E: Sink>()
    ensures { (words : List (List ℕ)) (taps : ℕ) (shelf shelf' : F) (out out' : K) (err err' : E) (s : Status) → IsCommand words (Make taps)
        → Outcome (Asks F.fetch_gives F.told F.faults words shelf shelf') words (Rose (K.faults out) (K.faults out'))
        (out' ≡ out) (err' ≡ err)
        (λ bytes. WritesAll K.put_gives K.written K.faults bytes out out')
        (λ answer bytes. StopsAt K.put_gives K.written answer bytes out out')
        (λ refusal status. Told E.put_gives E.written E.faults refusal err err' status)
        s
        → IsOfMake s }
{
    make_is_refused_for_its_program();
}

/// A program of a text can be compiled, by how its run ends, exactly where it is compiled to some
/// net.
pub fn compilable_is_compiled()
    ensures { CompilableIsCompiled }
{
    nothing_refuses_a_compile();
    one_program();
    small_ends_compile();
}

/// In each form there is one net at most of which `emit` writes the text or the single bits, and so
/// one text.
pub fn one_net_is_emitted()
    ensures net { OneNetIn }
    ensures text { OneTextIn }
{
    one_compiled();
    one_shared_net();
}

/// The bytes that are answered to `simulate` with the flag of waves are the text of a wave. At both
/// times of each event of the stimulus it has the inputs there, and at the outputs the bits of what
/// the description means.
pub fn written_waves_are_read()
    ensures { WrittenWavesAreRead }
{
    words_are_one_command();
    one_program();
    waves_are_read();
}
