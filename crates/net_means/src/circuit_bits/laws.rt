//! Laws of right sides of circuits, each as the contract of a call that does nothing.
ghost use Rattle.net_means.specs.CircuitBits.Blocks.{ModulesAreTheirs, BodiesStand};
ghost use Rattle.net_means.specs.CircuitBits.Laws.{NamesHave, CrossingsHave, ConstantsHave, RegistersHave, ProductsHave, ProjectionsHave, EmptyLeavesHave, LeavesHaveFields};
ghost use Rattle.net_means.specs.CircuitBits.Memories.{MemoriesHave};
ghost use Rattle.net_means.specs.CircuitBits.Instances.{BodiesAreBlocks};
ghost use Rattle.net_means.specs.CircuitBits.Uses.{VariablesFollow, GroupsFollow, MembersFollow, CallsFollow, LiftsFollow, FollowersHave, WholesCall, WholesLift, UsesAreThere, PartsEnter, CallsHave, LiftsHave, SamplesHave};

use chw_types::laws::same_values;
use layout_laws::laws::zero_exists;
use net_grounds::laws::facts;
use type_laws::laws::fields_keep_same;

/// A variable has the leaf of the variable that it names, and a signal from another domain that of the signal.
pub fn copies_have()
    ensures name { NamesHave }
    ensures crossing { CrossingsHave }
{
    facts();
    same_values();
    fields_keep_same();
}

/// A constant has its bits; a register has those of its first value, or those that its signal had when it was taken last.
pub fn delays_have()
    ensures constant { ConstantsHave }
    ensures register { RegistersHave }
{
    facts();
    same_values();
    fields_keep_same();
}

/// A product has the leaves of its fields' variables, and a projection those of the field that it takes.
pub fn products_have()
    ensures product { ProductsHave }
    ensures projection { ProjectionsHave }
{
    facts();
    same_values();
    fields_keep_same();
}

/// Each leaf of a product is a leaf of one of its fields.
pub fn leaves_have_fields()
    ensures { LeavesHaveFields }
{
    facts();
}

/// Variables, groups, members of groups, calls and lifted functions have all that what they go on with has.
pub fn thunks_follow()
    ensures variable { VariablesFollow }
    ensures group { GroupsFollow }
    ensures member { MembersFollow }
    ensures call { CallsFollow }
    ensures lift { LiftsFollow }
{
    facts();
}

/// What has all that another thunk has, has its leaves.
pub fn followers_have()
    ensures { FollowersHave }
{
    facts();
    same_values();
    fields_keep_same();
}

/// As a whole a use of a made definition is one of the term for it.
pub fn wholes_are_calls()
    ensures call { WholesCall }
    ensures lift { WholesLift }
{}

/// The cells of a use are a use at a place, and what is read goes in there.
pub fn uses_are_there()
    ensures place { UsesAreThere }
    ensures enters { PartsEnter }
{}

/// A use has what the block of the module's body has inside: of a circuit at each leaf, of a lifted value on what its operands are at the history.
pub fn uses_have()
    ensures call { CallsHave }
    ensures lift { LiftsHave }
{
    facts();
    same_values();
    fields_keep_same();
}

/// A leaf without bits has none on each thunk and on any wires.
pub fn empty_leaves_have()
    ensures { EmptyLeavesHave }
{
    facts();
}

/// What is built of the body of a function is built of its block, with its parameters in scope.
pub fn bodies_are_blocks()
    ensures { BodiesAreBlocks }
{}

/// The module at the place of a made definition is that of its body; and the block of the body stands in each instance of it.
pub fn bodies_stand()
    ensures modules { ModulesAreTheirs }
    ensures body { BodiesStand }
{}

/// The sample of a signal carries the bits that the signal shows.
pub fn samples_have()
    ensures { SamplesHave }
{
    facts();
    same_values();
    fields_keep_same();
}

/// A block RAM shows what the content and the writes of the earlier ticks have left at the address that was read last, and zeros where it has no such word.
pub fn memories_have()
    ensures { MemoriesHave }
{
    facts();
    same_values();
    fields_keep_same();
    zero_exists();
}
