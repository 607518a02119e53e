//! What is read, what a thing to be read does at a token, and the stack.

use idl_token::{Reserved, Seen, Sign};

/// One token.
#[derive(Clone, Copy, Drop)]
pub enum Piece {
    Sign(Sign),
    Reserved(Reserved),
    /// Any word that is none of the language.
    Word,
    /// The word `sw_read`.
    SoftRead,
    /// The word `sw_write`.
    SoftWrite,
    Quoted,
    /// How many bits an access to memory has.
    Access,
}

/// A part of a width. A factor is an atom that may be multiplied, and a product a term of factors.
#[derive(Clone, Copy, Drop)]
pub enum WidthPart {
    Atom,
    Factor,
    Term,
    Product,
    AfterNumber,
    Multiplied,
    Short,
    Sums,
    Whole,
    OfBits,
    /// Reads nothing, and says whether the width before it may be multiplied.
    May(bool),
}

/// A part of an expression. Levels of binding count from the products on.
#[derive(Clone, Copy, Drop)]
pub enum ExprPart {
    Any,
    Tight(u8),
    Behind,
    Operand,
    Primary,
    Parts,
    Inside,
    Onward(u8),
    More(u8),
    Choice,
    Rest,
    Named,
    Called,
    Args,
    MoreArgs,
    Braced,
    Csr,
    CsrWord,
    CsrField,
    ReadOrField,
}

/// A part of a statement.
#[derive(Clone, Copy, Drop)]
pub enum StmtPart {
    Stmts,
    Stmt,
    Worded,
    Call,
    Csr,
    CsrWord,
    CsrTarget,
    WriteOrSet,
    When,
    Otherwise,
    ElseBlock,
    Count,
    Shape,
}

/// A part of a function.
#[derive(Clone, Copy, Drop)]
pub enum FunctionPart {
    Functions,
    Function,
    Result,
    Taken,
    Arguments,
    MoreArguments,
    About,
    AboutText,
}

/// Something to be read.
#[derive(Clone, Copy, Drop)]
pub enum Item<'a> {
    Piece(Piece),
    /// One certain word.
    Same(&'a str),
    Width(WidthPart),
    Expr(ExprPart),
    Stmt(StmtPart),
    Function(FunctionPart),
}

/// Where there are two readings: what stands in brackets, an expression or the two ends of a slice,
/// and what stands in braces, a join or a repetition.
#[derive(Clone, Copy, Drop)]
pub enum Pair {
    Inside,
    Braced,
}

/// What a thing to be read does at a token: it takes the token or leaves it, and then others are to be
/// read in its place.
#[derive(Clone, Copy, Drop)]
pub enum Plan<'a> {
    Takes(&'a [Item<'a>]),
    TakesTwo(Item<'a>, Item<'a>),
    /// Takes the counter of a loop, which is read twice more.
    TakesCounter(&'a str),
    Leaves(&'a [Item<'a>]),
    LeavesTwo(Item<'a>, Item<'a>),
    Refuses,
    Sets(bool),
    Both(Pair),
}

/// What one of two readings gave: it came to its end, or stopped at a fault; and the tokens from there
/// on.
#[derive(Clone, Copy, Drop)]
pub enum Reading<'a> {
    Came(&'a [Seen<'a>]),
    Stopped(&'a [Seen<'a>]),
}

/// A frame of the stack. Behind the first of two readings stand the second one and the tokens from
/// which both start, and behind the second one what the first one gave.
#[derive(Clone, Copy, Drop)]
pub enum Frame<'a> {
    Reads(Item<'a>),
    Second { pair: Pair, start: &'a [Seen<'a>] },
    Compare(Reading<'a>),
}

/// A state of the recogniser. The top of the stack is the last of its frames.
#[derive(Drop)]
pub struct State<'a> {
    pub stack: Vec<Frame<'a>>,
    /// Whether the width that was read last may be multiplied.
    pub may: bool,
    pub rest: &'a [Seen<'a>],
    /// Whether there is a fault, and a frame is sought with which reading goes on.
    pub falls: bool,
}

/// A turn of the recogniser: on to another state, or the end with the tokens from the fault on, where
/// there is one.
#[derive(Drop)]
pub enum Turn<'a> {
    Goes(State<'a>),
    Halts(Option<&'a [Seen<'a>]>),
}

/// What a fault does at a frame: it falls to the next one, or leads to the second of two readings, or
/// the first of them came farther and goes on.
#[derive(Clone, Copy, Drop)]
pub enum Fall<'a> {
    Falls(&'a [Seen<'a>]),
    Tries { pair: Pair, start: &'a [Seen<'a>] },
    Came(&'a [Seen<'a>]),
}
