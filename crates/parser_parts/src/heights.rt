//! The heights of the parts that the parser has read.
ghost use Rattle.std.specs.Prelude.{◌≡◌, ◌∷◌, IfOk};
ghost use Rattle.parser_parts.specs.Heights.{told, counted, newest, others, peak, beyond, single, longer, raised, shape_of};

use crate::action::Action;
use crate::stack::Stack;
use chw_base::NoMemory;

/// The height of a part, and how many items it has if it is a list.
#[derive(Clone, Copy)]
pub struct Measure {
    pub height: u32,
    pub count: u32,
}

/// What becomes of the heights of the newest parts.
#[derive(Clone, Copy)]
pub enum Shape {
    /// A list without items.
    NoItems,
    /// A list of the newest part.
    FirstItem,
    /// The list behind so many parts, with an item of them more.
    Item(u32),
    /// The same, where the item is a node.
    NodeItem(u32),
    /// A node over so many parts.
    Node(u32),
    /// A chain of signs between the items of a list.
    Chain,
    /// The part behind a list, applied to its items.
    Application,
}

/// Heights above this one are kept as it.
const MOST_HEIGHT: u32 = 1_000;

/// Counts above this one are kept as it. It is so far over the other that the sign that a chain has less than parts makes no difference.
const MOST_COUNT: u32 = 2_000;

fn told(n: u32) -> u32
    ensures { result ≡ told n }
{
    n.min(MOST_HEIGHT)
}

fn counted(n: u32) -> u32
    ensures { result ≡ counted n }
{
    n.min(MOST_COUNT)
}

/// Takes the newest, or nothing where there is none.
fn pop(heights: &mut Stack<Measure>) -> Measure
    ensures first { result ≡ newest heights.old }
    ensures rest { heights.new ≡ others heights.old }
{
    match heights.pop() {
        Some(measure) => measure,
        None => Measure {
            height: 0,
            count: 0,
        },
    }
}

/// Takes so many, and answers the height of the highest.
fn pop_peak(heights: &mut Stack<Measure>, parts: u32) -> u32
    ensures high { result ≡ peak parts heights.old }
    ensures rest { heights.new ≡ beyond parts heights.old }
{
    let mut highest = 0;
    let mut left = parts;
    while left > 0 {
        left -= 1;
        highest = pop(&mut *heights).height.max(highest);
    }
    highest
}

/// What a part of this height is, if it is no list.
fn single(height: u32) -> Measure
    ensures { result ≡ single height }
{
    Measure {
        height: told(height),
        count: 0,
    }
}

/// The list with an item of this height more.
fn longer(item: u32, list: Measure) -> Measure
    ensures { result ≡ longer item list }
{
    Measure {
        height: told(item.max(list.height)),
        count: counted(list.count.saturating_add(1)),
    }
}

/// Takes the heights of the newest parts, and answers that of what is made of them.
fn made(shape: Shape, heights: &mut Stack<Measure>) -> Measure
    ensures { result ∷ heights.new ≡ raised shape heights.old }
{
    match shape {
        Shape::NoItems => single(0),
        Shape::FirstItem => Measure {
            height: told(pop(&mut *heights).height),
            count: 1,
        },
        Shape::Item(parts) => {
            let item = pop_peak(&mut *heights, parts);
            longer(item, pop(&mut *heights))
        }
        Shape::NodeItem(parts) => {
            let item = pop_peak(&mut *heights, parts).saturating_add(1);
            longer(item, pop(&mut *heights))
        }
        Shape::Node(parts) => single(pop_peak(&mut *heights, parts).saturating_add(1)),
        Shape::Chain => {
            let list = pop(&mut *heights);
            single(list.count.saturating_sub(1).saturating_add(list.height))
        }
        Shape::Application => {
            let list = pop(&mut *heights);
            let head = pop(&mut *heights);
            let highest = list.height.max(head.height);
            single(list.count.saturating_add(highest).max(1))
        }
    }
}

/// Puts in place of the heights of the newest parts that of what is made of them, and answers it.
pub fn raise(shape: Shape, heights: &mut Stack<Measure>) -> Result<u32, NoMemory>
    ensures raised { IfOk result (λ _. heights.new ≡ raised shape heights.old) }
    ensures answer { IfOk result (λ height. height ≡ (newest heights.new).height) }
{
    let made = made(shape, &mut *heights);
    heights.push(made)?;
    Ok(made.height)
}

/// What becomes of heights by an action.
pub fn shape_of(action: Action) -> Shape
    ensures { result ≡ shape_of action }
{
    match action {
        Action::NoDeclarations
        | Action::NoParameters
        | Action::NoConstructors
        | Action::NoWords
        | Action::NoTypes
        | Action::NoBindings
        | Action::NoAlternatives
        | Action::NoArguments
        | Action::NoTerms => Shape::NoItems,
        Action::FirstType => Shape::FirstItem,
        Action::Word
        | Action::MoreType
        | Action::TermArgument
        | Action::TypeArgument
        | Action::MoreTerm => Shape::Item(1),
        Action::Parameter | Action::Constructor | Action::Alternative => Shape::Item(2),
        Action::Binding => Shape::Item(3),
        Action::Domain(_) => Shape::NodeItem(1),
        Action::Definition | Action::DataType => Shape::NodeItem(3),
        Action::DefaultPattern => Shape::Node(0),
        Action::Variable
        | Action::Numeral
        | Action::LiteralPattern
        | Action::NameTerm
        | Action::ConstructorTerm
        | Action::LiteralTerm => Shape::Node(1),
        Action::Arrow
        | Action::LetRec
        | Action::ConstructorPattern
        | Action::Case
        | Action::VecLit => Shape::Node(2),
        Action::Forall | Action::Lambda | Action::TypeLambda => Shape::Node(3),
        Action::Tree => Shape::Node(4),
        Action::Sum | Action::Product => Shape::Chain,
        Action::Named | Action::Apply => Shape::Application,
    }
}
