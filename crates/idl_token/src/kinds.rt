//! The kinds of tokens.

/// A word of the language: a plain word of the same letters is this one.
#[derive(Clone, Copy, PartialEq, Eq)]
pub enum Reserved {
    Bits,
    Boolean,
    XReg,
    U32,
    U64,
    Signed,
    True,
    False,
    If,
    Else,
    For,
    Return,
    Function,
    Returns,
    Arguments,
    Description,
    Body,
    X,
    Csr,
    Max,
    Mode,
    Xlen,
    Jump,
    Raise,
    ReadMemory,
    WriteMemory,
    PrivilegeMode,
    ExceptionCode,
    CsrFieldType,
    ExtensionName,
    CsrValue,
}

/// A word that holds a sign: `implemented?`, `implemented_version?`, `$signed`, `$resize`, `$bits`,
/// `$pc` and `$encoding`.
#[derive(Clone, Copy, PartialEq, Eq)]
pub enum Special {
    Implemented,
    ImplementedVersion,
    AsSigned,
    Resize,
    WidthOf,
    Pc,
    Encoding,
}

/// A sign. The wide ones begin with a backquote.
#[derive(Clone, Copy, PartialEq, Eq)]
pub enum Sign {
    /// `(`
    OpenParen,
    /// `)`
    CloseParen,
    /// `[`
    OpenBracket,
    /// `]`
    CloseBracket,
    /// `{`
    OpenBrace,
    /// `}`
    CloseBrace,
    /// `<`
    Less,
    /// `>`
    Greater,
    /// `,`
    Comma,
    /// `;`
    Semicolon,
    /// `:`
    Colon,
    /// `.`
    Dot,
    /// `::`
    Path,
    /// `?`
    Question,
    /// `=`
    Assign,
    /// `==`
    Equal,
    /// `!=`
    NotEqual,
    /// `<=`
    AtMost,
    /// `>=`
    AtLeast,
    /// `<<`
    Left,
    /// `>>`
    Right,
    /// `>>>`
    RightSigned,
    /// `` `<< ``
    WideLeft,
    /// `` `+ ``
    WidePlus,
    /// `` `- ``
    WideMinus,
    /// `` `* ``
    WideTimes,
    /// `+`
    Plus,
    /// `-`
    Minus,
    /// `*`
    Times,
    /// `/`
    Divide,
    /// `%`
    Remainder,
    /// `&`
    Ampersand,
    /// `|`
    Bar,
    /// `^`
    Caret,
    /// `~`
    Tilde,
    /// `!`
    Not,
    /// `&&`
    And,
    /// `||`
    Or,
    /// `++`
    Increment,
}

/// What a token is. Words, numbers and texts say more by the token's text.
#[derive(Clone, Copy, PartialEq, Eq)]
pub enum TokenKind {
    /// A word that is none of the language.
    Word,
    Reserved(Reserved),
    Special(Special),
    /// A number without a width: `12`, `0x1f`, `0b101`.
    Number,
    /// A number with a width: `8'd255`, `MXLEN'sh0f`.
    Sized,
    /// A text with its quotes.
    Text,
    /// What stands between `description {` and the next brace.
    Description,
    Sign(Sign),
}
