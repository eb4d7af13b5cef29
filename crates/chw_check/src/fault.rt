//! Why a program isn't typed.
use chw_base::Name;

/// Why a program isn't typed. Each is looked for in the whole program before the next.
#[derive(Debug, Drop)]
pub enum TypeFault {
    /// A type in the declaration of this name has no kind; or a field, a definition, a binder or a binding there has a type of naturals or
    /// of domains. Data types come before definitions, and of several the first declared is told.
    Kind { name: Name },
    /// The body of the definition of this name has no type, or another than the declared one. Of several definitions it is the first.
    Typing { name: Name },
    /// In the definition of this name a case without a default lacks this constructor. Of several such cases it is the first, and of
    /// several constructors the first declared.
    Missing { name: Name, con: Name },
    /// In the definition of this name a case on a scalar has no default. Of several such cases it is the first.
    NoDefault { name: Name },
    /// This is the type of the top's definition: not all its parameters and its result are ports, or the numbers of names aren't those of
    /// their leaves.
    NotPorts { ty: Name },
}
