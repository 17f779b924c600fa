// What a file plainly is, where it isn't what a command reads.
ghost use Rattle.std.specs.Prelude.{◌≡◌, None};

/// What the first bytes of a file are plainly the beginning of.
#[derive(Clone, Copy, Debug, PartialEq, Eq)]
pub enum Kind {
    /// A module, in bytes.
    Module,
    /// A saved ledger.
    Ledger,
    /// Text, as a module or a stream may be written.
    Text,
    /// A stream of records.
    Stream,
    /// Zeros, with which no record begins.
    Zeros,
}

/// How many of a file's bytes are looked at.
pub const FRONT: usize = 64;

/// What a module begins with.
const MODULE: [u8; 4] = [0xA1, 0x1C, 0xEB, 0x0B];

/// What a saved ledger of either form begins with.
const LEDGER: [u8; 3] = *b"MVL";

/// Whether a byte may stand in a text: a tab, a line end, or any byte that isn't an ASCII control character.
fn is_of_text(byte: u8) -> bool {
    matches!(byte, b'\t' | b'\n' | b'\r' | 0x20..=0x7E | 0x80..=0xFF)
}

/// What bytes are the beginning of, if that is plain.
pub fn kind_of(front: &[u8]) -> Option<Kind> {
    if front.starts_with(&MODULE) {
        return Some(Kind::Module);
    }
    if front.starts_with(&LEDGER) {
        return Some(Kind::Ledger);
    }
    match front.first() {
        None => None,
        Some(0) => Some(Kind::Zeros),
        Some(1..=4) => Some(Kind::Stream),
        Some(_) if front.iter().all(|byte| is_of_text(*byte)) => Some(Kind::Text),
        Some(_) => None,
    }
}

impl Kind {
    /// What is said of a file of this kind, where another one is wanted; None where there is nothing to say.
    pub fn advice(self, wanted: Kind) -> Option<&'static str>
        ensures { self ≡ wanted → result ≡ None }
    {
        if self == wanted {
            return None;
        }
        match (self, wanted) {
            (Kind::Module, _) => Some("this is a module, in bytes: `prove` and `check` take it"),
            (Kind::Ledger, _) => Some("this is a saved ledger: `apply --load` takes it"),
            (Kind::Stream, _) => Some("this is a stream of records: `apply` takes it"),
            (Kind::Text, Kind::Stream) => Some(
                "this is a text, not a stream: assemble it first, `tools/moveasm FILE -o FILE.stream`",
            ),
            (Kind::Text, Kind::Module) => Some(
                "this is a text, not a module: assemble it first, `tools/moveasm FILE -o FILE.module`",
            ),
            (Kind::Text, _) => Some("this is text, not a saved ledger"),
            (Kind::Zeros, Kind::Stream) => Some("this begins with a zero, as no record does"),
            (Kind::Zeros, _) => None,
        }
    }
}
