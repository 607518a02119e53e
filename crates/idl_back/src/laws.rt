//! What holds of printed text.

ghost use Rattle.std.specs.Prelude.{◌≡◌, ◌+◌, ◌<◌, ◌^◌, ◌==◌, ◌||◌, ◌∷◌, ◌++◌, ℕ, Bool, List, [], true, false, length};
ghost use Rattle.std.specs.List.{list_all};
ghost use Rattle.std.specs.Fmt.{decimal};
ghost use Rattle.idl_token.specs.declared.kinds.Reserved.{Reserved};
ghost use Rattle.idl_token.specs.declared.kinds.Special.{Special};
ghost use Rattle.idl_token.specs.declared.kinds.Sign.{Sign};
ghost use Rattle.idl_token.specs.declared.kinds.Sign.TheVariants as sign;
ghost use Rattle.idl_token.specs.declared.kinds.TokenKind.{TokenKind};
ghost use Rattle.idl_token.specs.declared.kinds.TokenKind.TheVariants as kind;
ghost use Rattle.idl_token.specs.Spelling.{reserved_text, sign_text, special_text};
ghost use Rattle.idl_token.specs.Numbers.{Number, Parameter};
ghost use Rattle.idl_token.specs.Values.{IsWord};
ghost use Rattle.idl_token.specs.Lexeme.{Lexeme};
ghost use Rattle.idl_token.specs.Front.{is_no_quote, start, takes_width};
ghost use Rattle.idl_token.specs.Rows.{IsRow};
ghost use Rattle.idl_tree.specs.Print.{quote_word};
ghost use Rattle.idl_token.specs.Symbol.{symbol_by, symbols};
ghost use Rattle.idl_token.specs.Symbol as symbol;
ghost use Rattle.idl_back.specs.Piece.{Piece, ReadsAsToken, Sits, Stands, begins_part, between_quotes, between_spaces, ends_before, ends_sign, ends_width, gap, goes_on, keeps_flag, lexemes_from, symbols_of, text_of, token, width_opens};
ghost use Rattle.idl_back.specs.Spelled.{AreSpelled};

/// Where each piece is what stands in front at its place, their text is the row of their tokens,
/// and pieces may be put behind pieces. These are laws on the definitions.
pub fn pieces_are_tokens()
    ensures row { (ps : List Piece)
        → Stands start ps [] → IsRow (text_of ps) (lexemes_from 0 ps) }
    ensures symbols { (n : ℕ) (ps : List Piece) → symbols (lexemes_from n ps) ≡ symbols_of ps }
    ensures none { (v : Bool) (s : List ℕ) → Sits v [] s v }
    ensures joined { (u v w : Bool) (ps qs : List Piece) (s : List ℕ)
        → Sits u ps (text_of qs ++ s) v → Sits v qs s w → Sits u (ps ++ qs) s w }
{}

/// The tokens of a body stand before each text that doesn't go on with them, in a width and
/// elsewhere; special words, texts and separators before any text.
pub fn tokens_stand()
    ensures blank { (w : Bool) (c : ℕ) (s : List ℕ)
        → ((c == 32) || (c == 10)) ≡ true → Sits w (gap c ∷ []) s w }
    ensures word { (w : Bool) (x s : List ℕ)
        → IsWord x → 0 < length x → ends_before s ≡ true → ReadsAsToken w kind.Word x s }
    ensures reserved { (w : Bool) (x : Reserved) (s : List ℕ)
        → keeps_flag (kind.Reserved x) ≡ true → ends_before s ≡ true
        → ReadsAsToken w (kind.Reserved x) (reserved_text x) s }
    ensures special { (w : Bool) (x : Special) (s : List ℕ)
        → keeps_flag (kind.Special x) ≡ true
        → ReadsAsToken w (kind.Special x) (special_text x) s }
    ensures number { (w : Bool) (n : ℕ) (s : List ℕ)
        → n < 2 ^ 128 → ends_before s ≡ true → ReadsAsToken w kind.Number (decimal n) s }
    ensures sized { (w u : Bool) (n v : ℕ) (s : List ℕ)
        → n < 2 ^ 128 → v < 2 ^ 128 → ends_before s ≡ true
        → ReadsAsToken w kind.Sized (decimal n ++ quote_word u ++ decimal v) s }
    ensures sized_by { (w u : Bool) (x : List ℕ) (v : ℕ) (s : List ℕ)
        → IsWord x → 0 < length x → v < 2 ^ 128 → ends_before s ≡ true
        → ReadsAsToken w kind.Sized (x ++ quote_word u ++ decimal v) s }
    ensures text { (w : Bool) (x s : List ℕ)
        → list_all is_no_quote x ≡ true → ReadsAsToken w kind.Text (between_quotes x) s }
{}

/// So do signs, those that no longer sign begins with before any text. In a width a `>` is a token
/// by itself, whatever follows, and ends the width.
pub fn signs_stand()
    ensures sign { (w : Bool) (x : Sign) (s : List ℕ)
        → ends_width w x ≡ false → ends_sign s ≡ true
        → ReadsAsToken w (kind.Sign x) (sign_text x) s }
    ensures alone { (w : Bool) (x : Sign) (s : List ℕ)
        → ends_width w x ≡ false → goes_on x ≡ false
        → ReadsAsToken w (kind.Sign x) (sign_text x) s }
    ensures part { (s : List ℕ) → begins_part s ≡ true → ends_sign s ≡ true }
    ensures spaced { (x : Sign) (s : List ℕ) → Sits false (between_spaces x) s false }
    ensures close { (s : List ℕ)
        → Sits true (token (kind.Sign sign.Greater) (sign_text sign.Greater) ∷ []) s false }
    ensures opened { (w : Bool) (x : Reserved) (s : List ℕ)
        → takes_width (kind.Reserved x) ≡ true → ends_sign s ≡ true
        → Sits w (width_opens (kind.Reserved x) (reserved_text x)) s true }
    ensures opened_special { (w : Bool) (x : Special) (s : List ℕ)
        → takes_width (kind.Special x) ≡ true → ends_sign s ≡ true
        → Sits w (width_opens (kind.Special x) (special_text x)) s true }
{}

/// Words, numbers, texts and special words begin as an operand does, whatever follows them.
pub fn parts_begin()
    ensures word { (x s : List ℕ) → IsWord x → 0 < length x → begins_part (x ++ s) ≡ true }
    ensures number { (n : ℕ) (s : List ℕ) → n < 2 ^ 128 → begins_part (decimal n ++ s) ≡ true }
    ensures reserved { (x : Reserved) (s : List ℕ) → begins_part (reserved_text x ++ s) ≡ true }
    ensures special { (x : Special) (s : List ℕ) → begins_part (special_text x ++ s) ≡ true }
    ensures text { (x s : List ℕ) → begins_part (between_quotes x ++ s) ≡ true }
{}

/// What the texts of numbers, sized numbers and quoted texts say is what they were written of.
pub fn texts_say()
    ensures number { (n : ℕ)
        → n < 2 ^ 128 → symbol_by kind.Number (decimal n) ≡ symbol.number n }
    ensures sized { (u : Bool) (n v : ℕ) → n < 2 ^ 128 → v < 2 ^ 128
        → symbol_by kind.Sized (decimal n ++ quote_word u ++ decimal v)
        ≡ symbol.sized (Number n) u v }
    ensures sized_by { (u : Bool) (x : List ℕ) (v : ℕ) → IsWord x → v < 2 ^ 128
        → symbol_by kind.Sized (x ++ quote_word u ++ decimal v)
        ≡ symbol.sized (Parameter x) u v }
    ensures text { (x : List ℕ) → symbol_by kind.Text (between_quotes x) ≡ symbol.quoted x }
{}

/// Of the values of a row's tokens, words are words and not empty, numbers are below 2 ^ 128, and
/// texts have no quote mark.
pub fn rows_are_spelled()
    ensures { (source : List ℕ) (ts : List Lexeme) → IsRow source ts → AreSpelled (symbols ts) }
{}
