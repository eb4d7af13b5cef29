//! The laws, each as the contract of a call that does nothing.
ghost use Rattle.net_ready.specs.Laws.{ReadyCircuitsAreBuilt, ReadyValuesAreBuilt};
ghost use Rattle.net_ready.specs.Laws.{DraftsAreThere, SettledDraftsAreBuilt, PassesAreFew};
ghost use Rattle.net_ready.specs.Laws.{ReadyModulesAreBuilt, OrdersAreThere, ReadyStatesHaveNets};

/// The block of a circuit that is ready is built.
pub fn ready_circuits_are_built()
    ensures { ReadyCircuitsAreBuilt }
{}

/// Of the block of a value that is ready there is a pass, whatever is known.
pub fn drafts_are_there()
    ensures { DraftsAreThere }
{}

/// A pass that gives what was known builds the block.
pub fn settled_drafts_are_built()
    ensures { SettledDraftsAreBuilt }
{}

/// At most as many passes as bindings, and one more, give other wires than were known.
pub fn passes_are_few()
    ensures { PassesAreFew }
{}

/// The block of a value that is ready is built, where no binding leads back to itself.
pub fn ready_values_are_built()
    ensures { ReadyValuesAreBuilt }
{}

/// A made definition that is ready has a module.
pub fn ready_modules_are_built()
    ensures { ReadyModulesAreBuilt }
{}

/// There is an order of modules, where no made definition uses itself.
pub fn orders_are_there()
    ensures { OrdersAreThere }
{}

/// A state that is ready has a net.
pub fn ready_states_have_nets()
    ensures { ReadyStatesHaveNets }
{}
