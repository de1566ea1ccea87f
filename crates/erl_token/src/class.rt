//! What a byte may begin.
ghost use Rattle.std.specs.Prelude.{◌≡◌};

/// What a byte begins where a token may begin.
#[derive(Clone, Copy)]
pub enum Class {
    Blank,
    Percent,
    Comma,
    Dot,
    OpenTuple,
    CloseTuple,
    OpenList,
    CloseList,
    Less,
    Greater,
    Quote,
    Apostrophe,
    Dollar,
    Sign,
    Letter,
    Digit,
    Other,
}

impl Class {
    ghost use Rattle.erl_token.specs.Lexing.{class_of};

    /// The class of a byte.
    #[inline(always)]
    pub fn of(byte: u8) -> Class
        ensures { result ≡ class_of byte }
    {
        match byte {
            0..=b' ' => Class::Blank,
            b'%' => Class::Percent,
            b',' => Class::Comma,
            b'.' => Class::Dot,
            b'{' => Class::OpenTuple,
            b'}' => Class::CloseTuple,
            b'[' => Class::OpenList,
            b']' => Class::CloseList,
            b'<' => Class::Less,
            b'>' => Class::Greater,
            b'"' => Class::Quote,
            b'\'' => Class::Apostrophe,
            b'$' => Class::Dollar,
            b'+' | b'-' => Class::Sign,
            b'a'..=b'z' => Class::Letter,
            b'0'..=b'9' => Class::Digit,
            _ => Class::Other,
        }
    }
}
