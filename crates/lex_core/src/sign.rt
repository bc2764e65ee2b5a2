//! What a byte of a text is. `specs/Signs.antt` has the rules.

ghost use Rattle.std.specs.Prelude.{◌≡◌};
ghost use Rattle.lex_core.specs.LogicalLines.{is_blank, is_alone};
ghost use Rattle.lex_core.specs.Signs.{no_more, text_sign, sign_at, place_behind};

/// Where in a physical line a byte stands.
#[derive(Clone, Copy)]
pub enum Place {
    InText,
    InComment,
    BehindMark,
}

/// What a byte is: a byte of a longer word, a word alone, a gap between words, the begin of a comment, a backslash
/// that joins the next physical line, the line feed behind such a backslash, or one that ends a logical line.
#[derive(Clone, Copy)]
pub enum Sign {
    Part,
    Alone,
    Gap,
    Hash,
    Mark,
    Join,
    End,
}

fn is_blank(b: u8) -> bool
    ensures { result ≡ is_blank b }
{
    b == b' ' || b == b'\t' || b == b'\r'
}

fn is_alone(b: u8) -> bool
    ensures { result ≡ is_alone b }
{
    b == b'(' || b == b')' || b == b','
}

// Whether nothing but blanks and a comment is left of the physical line.
fn has_no_more(rest: &[u8]) -> bool
    ensures { result ≡ no_more rest.now }
{
    let mut left = rest;
    while let [b, more @ ..] = left {
        if *b == b'\n' || *b == b'#' {
            return true;
        }
        if !is_blank(*b) {
            return false;
        }
        left = more;
    }
    true
}

pub fn text_sign(b: u8, rest: &[u8]) -> Sign
    ensures { result ≡ text_sign b rest.now }
{
    if b == b'\n' {
        Sign::End
    } else if b == b'#' {
        Sign::Hash
    } else if is_blank(b) {
        Sign::Gap
    } else if b == b'\\' && has_no_more(rest) {
        Sign::Mark
    } else if is_alone(b) {
        Sign::Alone
    } else {
        Sign::Part
    }
}

pub fn sign_at(place: Place, b: u8, rest: &[u8]) -> Sign
    ensures { result ≡ sign_at place b rest.now }
{
    match place {
        Place::InText => text_sign(b, rest),
        Place::InComment => if b == b'\n' { Sign::End } else { Sign::Gap },
        Place::BehindMark => if b == b'\n' { Sign::Join } else { Sign::Gap },
    }
}

pub fn place_behind(place: Place, sign: Sign) -> Place
    ensures { result ≡ place_behind place sign }
{
    match sign {
        Sign::Part | Sign::Alone | Sign::Gap => place,
        Sign::Hash => Place::InComment,
        Sign::Mark => Place::BehindMark,
        Sign::Join | Sign::End => Place::InText,
    }
}
