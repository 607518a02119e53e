//! What holds of every source.

ghost use Rattle.std.specs.Prelude.{◌≡◌, ◌⊎◌, ◌≤◌, ℕ, nat_eq, true, false, List, length, take};
ghost use Rattle.std.specs.List.{starts_with};
ghost use Rattle.idl_token.specs.declared.kinds.Reserved.{Reserved};
ghost use Rattle.idl_token.specs.declared.kinds.Special.{Special};
ghost use Rattle.idl_token.specs.declared.kinds.Sign.{Sign};
ghost use Rattle.idl_token.specs.Spelling.{reserved_text, special_text, sign_text};
ghost use Rattle.idl_token.specs.Front.{reserved_of, special_of, sign_of};
ghost use Rattle.idl_token.specs.Lexeme.{Lexeme};
ghost use Rattle.idl_token.specs.Rows.{IsRow, IsBadAt};

/// A source is one row of tokens, or has one place at which none begins, and not both. The front
/// before that place is a row of tokens by itself. These are laws on the definitions, so they hold
/// also where memory is short.
pub fn one_reading()
    ensures row { (source : List ℕ) (ts us : List Lexeme)
        → IsRow source ts → IsRow source us → ts ≡ us }
    ensures place { (source : List ℕ) (at to : ℕ)
        → IsBadAt source at → IsBadAt source to → at ≡ to }
    ensures apart { (source : List ℕ) (ts : List Lexeme) (at : ℕ)
        → IsRow source ts → IsBadAt source at → ⊥ }
    ensures front { (source : List ℕ) (at : ℕ)
        → IsBadAt source at → (ts : List Lexeme) × IsRow (take at source) ts }
    ensures either { (source : List ℕ)
        → ((ts : List Lexeme) × IsRow source ts) ⊎ ((at : ℕ) × IsBadAt source at) }
{}

/// Each word and sign is read as itself, and of the signs that stand in front the longest is taken.
pub fn own_spelling()
    ensures reserved { (w : Reserved) → reserved_of (reserved_text w) ≡ Some w }
    ensures special { (w : Special) → special_of (special_text w) ≡ Some w }
    ensures sign { (w : Sign) → sign_of (sign_text w) ≡ Some w }
    ensures longest { (text : List ℕ) (g h : Sign)
        → sign_of text ≡ Some g → starts_with nat_eq text (sign_text h) ≡ true
        → length (sign_text h) ≤ length (sign_text g) }
    ensures none { (text : List ℕ) (h : Sign)
        → sign_of text ≡ None → starts_with nat_eq text (sign_text h) ≡ false }
{}
