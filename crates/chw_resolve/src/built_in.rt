//! The built-in data types.
ghost use Rattle.std.specs.Prelude.{◌≡◌, [], ◌∷◌, codes, IfOk};
ghost use Rattle.chw_types.specs.BuiltIn.{constructor_of, data_type_of, built_in};
ghost use Rattle.chw_types.specs.TypeTree.{ty_var};
ghost use Rattle.chw_types.specs.declared.kind.Kind.TheVariants.{Val};

use chw_base::{Name, NoMemory, Seq, TyIx};
use chw_types::{ConDecl, Data, Kind, Ty};
use std::alloc::Global;

/// The built-in data types.
pub fn built_in(alloc: Global) -> Result<Vec<Data>, NoMemory>
    ensures { IfOk result (λ datas. datas.items ≡ built_in) }
{
    let datas = vec![in alloc; truth_values(alloc)?, maybe(alloc)?, pairs(alloc)?]?;
    Ok(datas)
}

/// `data Bool = False | True;`
fn truth_values(alloc: Global) -> Result<Data, NoMemory>
    ensures { IfOk result (λ made. made ≡ data_type_of (codes "Bool") [] (constructor_of (codes "False") [] ∷ constructor_of (codes "True") [] ∷ [])) }
{
    let cons = vec![in alloc;
        constructor(alloc, b"False", Vec::new(alloc))?,
        constructor(alloc, b"True", Vec::new(alloc))?,
    ]?;
    data_type(alloc, b"Bool", Vec::new(alloc), cons)
}

/// `data Maybe (a : Val) = Nothing | Just a;`
fn maybe(alloc: Global) -> Result<Data, NoMemory>
    ensures { IfOk result (λ made. made ≡ data_type_of (codes "Maybe") (Val ∷ []) (constructor_of (codes "Nothing") [] ∷ constructor_of (codes "Just") (ty_var 0 ∷ []) ∷ [])) }
{
    let cons = vec![in alloc;
        constructor(alloc, b"Nothing", Vec::new(alloc))?,
        constructor(alloc, b"Just", vec![in alloc; variable(0)]?)?,
    ]?;
    data_type(alloc, b"Maybe", vec![in alloc; Kind::Val]?, cons)
}

/// `data Pair (a : Val) (b : Val) = Pair a b;`
fn pairs(alloc: Global) -> Result<Data, NoMemory>
    ensures { IfOk result (λ made. made ≡ data_type_of (codes "Pair") (Val ∷ Val ∷ []) (constructor_of (codes "Pair") (ty_var 1 ∷ ty_var 0 ∷ []) ∷ [])) }
{
    let fields = vec![in alloc; variable(1), variable(0)]?;
    let cons = vec![in alloc; constructor(alloc, b"Pair", fields)?]?;
    data_type(alloc, b"Pair", vec![in alloc; Kind::Val, Kind::Val]?, cons)
}

/// The type variable of this number.
fn variable(number: u32) -> Ty
    ensures { result ≡ ty_var number }
{
    Ty::var(TyIx { number })
}

/// A constructor of this name with these fields.
fn constructor(alloc: Global, name: &[u8], fields: Vec<Ty>) -> Result<ConDecl, NoMemory>
    ensures { IfOk result (λ made. made ≡ constructor_of name.now fields.items) }
{
    Ok(ConDecl {
        name: Name::copy_of(alloc, name)?,
        fields: Seq::from(fields),
    })
}

/// A data type of values.
fn data_type(
    alloc: Global,
    name: &[u8],
    params: Vec<Kind>,
    cons: Vec<ConDecl>,
) -> Result<Data, NoMemory>
    ensures { IfOk result (λ made. made ≡ data_type_of name.now params.items cons.items) }
{
    Ok(Data {
        name: Name::copy_of(alloc, name)?,
        params: Seq::from(params),
        kind: Kind::Val,
        cons: Seq::from(cons),
    })
}
