//! The laws of what is compiled, each as the contract of a call that does nothing.
ghost use Rattle.answers.specs.Compilation.Laws.{CompiledEndsSmall, EndsAreRuns};
ghost use Rattle.answers.specs.Compilation.Laws.{NothingRefusesACompile, OneCompiled, OneCount};
ghost use Rattle.answers.specs.Compilation.Laws.{SharedNetMeans, SingleBitsMean};
ghost use Rattle.answers.specs.Compilation.Laws.{SmallEndsCompile};

use bit_laws::laws::single_bits_keep_bits;
use chw_meaning::laws::at_most_one_meaning;
use chw_norm::laws::{last_states_are_typed, nothing_refuses_a_normal_run, one_last_state};
use ended_laws::laws::none_is_stuck;
use net_built::laws::one_net_built;
use net_flat::laws::one_flat_net;
use net_there::laws::finished_states_have_nets;
use share_laws::laws::sharing_keeps_bits;

/// The state in which a run ends is one to which so many first steps lead.
pub fn ends_are_runs()
    ensures { EndsAreRuns }
{}

/// The runs of a program that end have as many steps, and end in as many made definitions.
pub fn one_count()
    ensures { OneCount }
{
    nothing_refuses_a_normal_run();
    one_last_state();
}

/// A program has one net and one flat net at most to which it is compiled.
pub fn one_compiled()
    ensures { OneCompiled }
{
    one_last_state();
    one_net_built();
    one_flat_net();
}

/// Nothing refuses a program whose run ends in a small state, and the run of one that is compiled to
/// some net ends so.
pub fn nothing_refuses_a_compile()
    ensures refused { NothingRefusesACompile }
    ensures compiled { CompiledEndsSmall }
{
    nothing_refuses_a_normal_run();
    one_last_state();
    one_net_built();
    one_flat_net();
}

/// A tidy and typed program whose run ends in a state that is blocked nowhere, acyclic and small is
/// compiled to some net.
pub fn small_ends_compile()
    ensures { SmallEndsCompile }
{
    last_states_are_typed();
    none_is_stuck();
    finished_states_have_nets();
}

/// Where a sound flat net without a loop has the bits of what a program means, so has its shared
/// net.
pub fn shared_net_means()
    ensures { SharedNetMeans }
{
    at_most_one_meaning();
    sharing_keeps_bits();
}

/// Where a sound flat net without a loop has the bits of what a program means, its net of single
/// bits has each of them.
pub fn single_bits_mean()
    ensures { SingleBitsMean }
{
    at_most_one_meaning();
    single_bits_keep_bits();
}
