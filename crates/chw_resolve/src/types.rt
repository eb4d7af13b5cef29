//! Types.
ghost use Rattle.std.specs.Prelude.{◌≡◌, map, IfOk, OnOk};
ghost use Rattle.std.specs.Option.{unwrap_or};
ghost use Rattle.chw_grammar.specs.TypeTree.{type_forall, type_arrow};
ghost use Rattle.chw_grammar.specs.TypeView.{types_of};
ghost use Rattle.chw_types.specs.TypeTree.{nat_lit};
ghost use Rattle.chw_types.specs.TypeView.{trees_of};
ghost use Rattle.chw_resolve.specs.Types.{kind_in, type_at, named_type, data_types_in, at_arguments, chain_of, type_in, types_in};
ghost use Rattle.chw_resolve.specs.Walks.{next_in, joined};

use chw_base::{DataId, DomId, NoMemory, TyIx};
use chw_grammar::{KindTree, TypeNode, TypeTree, Word, read_numeral};
use chw_names::Globals;
use chw_types::{Kind, Scalar, Ty};
use name_tables::Scope;
use std::alloc::Global;

/// What an upper name in a type stands for.
#[derive(Clone, Copy)]
pub enum TypeName {
    Scalar(Scalar),
    Vector,
    Signal,
    Data(DataId),
    Domain(DomId),
}

/// How the parts of a chain are joined.
#[derive(Clone, Copy)]
enum Join {
    Sum,
    Product,
}

/// The built-in types that are no data types, in the order in which their names stand before those of the data types.
pub const TYPE_FORMS: [TypeName; 5] = [
    TypeName::Scalar(Scalar::U),
    TypeName::Scalar(Scalar::S),
    TypeName::Scalar(Scalar::B),
    TypeName::Vector,
    TypeName::Signal,
];

/// The type of a tree, where these type variables are in scope.
///
/// A name that nothing declares stands for what has the number 0. A name with too few or too many arguments is the data type of a
/// number that names none, which has no kind.
#[cycle(type_in)]
pub fn type_in<'t>(
    alloc: Global,
    globals: &Globals<'t>,
    variables: &mut Scope<'t>,
    tree: &'t TypeTree,
) -> Result<Ty, NoMemory>
    ensures made { IfOk result (λ t. t ≡ type_in globals.now variables.old tree.now) }
    ensures scope { OnOk result (variables.new ≡ variables.old) }
{
    match &tree.node {
        TypeNode::Forall(variable, kind, body) => {
            forall_in(alloc, globals, variables, variable, *kind, body)
        }
        TypeNode::Arrow(from, to) => arrow_in(alloc, globals, variables, from, to),
        TypeNode::Sum(parts) => chain_in(alloc, globals, variables, Join::Sum, parts.as_slice()),
        TypeNode::Product(factors) => {
            chain_in(alloc, globals, variables, Join::Product, factors.as_slice())
        }
        TypeNode::Named(word, arguments) => {
            let arguments = types_in(alloc, globals, variables, arguments.as_slice())?;
            let name = named_type(globals, word.bytes.as_slice());
            Ok(at_arguments(alloc, data_types_in(globals), name, arguments)?)
        }
        TypeNode::Variable(word) => {
            let number = variables.find(word.bytes.as_slice()).unwrap_or(0);
            Ok(Ty::var(TyIx { number }))
        }
        TypeNode::Numeral(digits) => {
            let number = read_numeral(digits.bytes.as_slice());
            Ok(Ty::nat(number.unwrap_or(0)))
        }
    }
}

/// The type that binds a type variable of this name.
#[cycle(type_in)]
fn forall_in<'t>(
    alloc: Global,
    globals: &Globals<'t>,
    variables: &mut Scope<'t>,
    variable: &'t Word,
    kind: KindTree,
    body: &'t TypeTree,
) -> Result<Ty, NoMemory>
    ensures made { IfOk result (λ t. t ≡ type_in globals.now variables.old (type_forall variable.now kind body.now)) }
    ensures scope { OnOk result (variables.new ≡ variables.old) }
{
    variables.bind(variable.bytes.as_slice())?;
    let body = type_in(alloc, globals, variables, body)?;
    variables.unbind();
    Ok(Ty::forall(alloc, kind_in(kind), body)?)
}

/// The functions from one type to another.
#[cycle(type_in)]
fn arrow_in<'t>(
    alloc: Global,
    globals: &Globals<'t>,
    variables: &mut Scope<'t>,
    from: &'t TypeTree,
    to: &'t TypeTree,
) -> Result<Ty, NoMemory>
    ensures made { IfOk result (λ t. t ≡ type_in globals.now variables.old (type_arrow from.now to.now)) }
    ensures scope { OnOk result (variables.new ≡ variables.old) }
{
    let from = type_in(alloc, globals, variables, from)?;
    let to = type_in(alloc, globals, variables, to)?;
    Ok(Ty::fun(alloc, from, to)?)
}

/// The sum or the product of these parts.
#[cycle(type_in)]
fn chain_in<'t>(
    alloc: Global,
    globals: &Globals<'t>,
    variables: &mut Scope<'t>,
    join: Join,
    parts: &'t [TypeTree],
) -> Result<Ty, NoMemory>
    ensures made { IfOk result (λ t. t ≡ chain_of (joined join) (types_in globals.now variables.old (types_of parts.now))) }
    ensures scope { OnOk result (variables.new ≡ variables.old) }
{
    let mut chain = None;
    for part in parts {
        let part = type_in(alloc, globals, variables, part)?;
        chain = Some(joined(alloc, join, chain, part)?);
    }
    Ok(or_zero(chain))
}

/// The types of trees.
#[cycle(type_in)]
pub fn types_in<'t>(
    alloc: Global,
    globals: &Globals<'t>,
    variables: &mut Scope<'t>,
    trees: &'t [TypeTree],
) -> Result<Vec<Ty>, NoMemory>
    ensures made { IfOk result (λ t. t.items ≡ map (type_in globals.now variables.old) trees.now) }
    ensures scope { OnOk result (variables.new ≡ variables.old) }
{
    let mut done = Vec::new(alloc);
    for tree in trees {
        done.push(type_in(alloc, globals, variables, tree)?)?;
    }
    Ok(done)
}

/// The kind that is written.
pub fn kind_in(kind: KindTree) -> Kind
    ensures { result ≡ kind_in kind }
{
    match kind {
        KindTree::Nat => Kind::Nat,
        KindTree::Dom => Kind::Dom,
        KindTree::Val => Kind::Val,
        KindTree::Cir => Kind::Cir,
    }
}

/// The chain so far with one more part behind it.
fn joined(alloc: Global, join: Join, chain: Option<Ty>, part: Ty) -> Result<Ty, NoMemory>
    ensures { IfOk result (λ t. t ≡ next_in (joined join) chain part) }
{
    match (chain, join) {
        (None, _) => Ok(part),
        (Some(chain), Join::Sum) => Ok(Ty::sum(alloc, chain, part)?),
        (Some(chain), Join::Product) => Ok(Ty::times(alloc, chain, part)?),
    }
}

/// The chain, and 0 where it has no parts.
fn or_zero(chain: Option<Ty>) -> Ty
    ensures { result ≡ unwrap_or chain (nat_lit 0) }
{
    chain.unwrap_or(Ty::nat(0))
}

/// What an upper name in a type stands for.
fn named_type<'t>(globals: &Globals<'t>, name: &[u8]) -> TypeName
    ensures { result ≡ named_type globals.now name.now }
{
    match globals.data_types.find(name) {
        Some(place) => type_at(place),
        None => TypeName::Domain(DomId {
            number: globals.domains.find(name).unwrap_or(0),
        }),
    }
}

/// What stands at this place among the names of types.
fn type_at(place: u32) -> TypeName
    ensures { result ≡ type_at place }
{
    let forms = TYPE_FORMS;
    match forms.get(place as usize) {
        Some(form) => *form,
        None => TypeName::Data(DataId {
            number: place - forms.len() as u32,
        }),
    }
}

/// How many data types there are, the built-in ones too.
fn data_types_in<'t>(globals: &Globals<'t>) -> DataId
    ensures { result.number ≡ data_types_in globals.now }
{
    let forms = TYPE_FORMS;
    DataId {
        number: globals.data_types.len().saturating_sub(forms.len() as u32),
    }
}

/// A name at arguments. Where these are too few or too many, the data type of a number that names none.
fn at_arguments(
    alloc: Global,
    none: DataId,
    name: TypeName,
    arguments: Vec<Ty>,
) -> Result<Ty, NoMemory>
    ensures { IfOk result (λ t. t ≡ at_arguments none.number name (trees_of arguments.items)) }
{
    let mut arguments = arguments;
    match name {
        TypeName::Scalar(sort) => {
            if arguments.len() != 1 {
                return Ok(Ty::data_of(none, arguments));
            }
            let width = arguments.remove(0);
            Ty::scalar(alloc, sort, width)
        }
        TypeName::Vector => {
            if arguments.len() != 2 {
                return Ok(Ty::data_of(none, arguments));
            }
            let of = arguments.remove(1);
            let len = arguments.remove(0);
            Ty::vec(alloc, len, of)
        }
        TypeName::Signal => {
            if arguments.len() != 2 {
                return Ok(Ty::data_of(none, arguments));
            }
            let of = arguments.remove(1);
            let dom = arguments.remove(0);
            Ty::signal(alloc, dom, of)
        }
        TypeName::Data(at) => Ok(Ty::data_of(at, arguments)),
        TypeName::Domain(at) => {
            if arguments.is_empty() {
                Ok(Ty::dom_of(at))
            } else {
                Ok(Ty::data_of(none, arguments))
            }
        }
    }
}
