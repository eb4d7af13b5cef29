//! The laws, each as the contract of a call that does nothing.
ghost use Rattle.net_built.specs.Laws.{OneOrder, OneCircuit, OneListOfModules, OneNetBuilt, ValuesDriveInOrder};

/// The modules of a state stand in one order.
pub fn one_order()
    ensures { OneOrder }
{}

/// The body of a circuit is built in one way at most.
pub fn one_circuit()
    ensures { OneCircuit }
{}

/// Made definitions have one list of modules at most, where of values no binding leads back to itself.
pub fn one_list_of_modules()
    ensures { OneListOfModules }
{}

/// At most one net is built of a state in normal form.
pub fn one_net_built()
    ensures { OneNetBuilt }
{}

/// The cells of a right side of values drive its wires in order.
pub fn values_drive_in_order()
    ensures { ValuesDriveInOrder }
{}
