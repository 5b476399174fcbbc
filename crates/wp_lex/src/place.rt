//! The kinds of text, the kinds of byte, and what stands before a place of a text.

ghost use Rattle.std.specs.Prelude.{◌≡◌, [], ◌+◌, if◌then◌else◌};
ghost use Rattle.wp_lex.specs.declared.place.Class.TheVariants.{Blank};
ghost use Rattle.wp_lex.specs.Words.{class_of, is_letter, is_opening, is_closing};

/// What is read.
#[derive(Clone, Copy)]
pub enum Source {
    /// A domain, a problem or another PDDL text: one list.
    Pddl,

    /// A plan file: any number of lists, with labels and durations between them.
    Plan,
}

/// What a byte is for.
#[derive(Clone, Copy)]
pub enum Class {
    /// It stands in a word.
    Letter,

    /// It opens a list.
    Opens,

    /// It closes a list.
    Closes,

    /// It separates words, as a comment does.
    Blank,

    /// It may stand in a comment only.
    Bad,
}

/// A place of a text, and what stands before it.
#[derive(Clone, Copy)]
pub struct Place {
    /// Its byte offset from 0.
    pub at: u64,

    /// Whether the byte before it is one of a word, so that a letter goes on with that word.
    pub continues: bool,

    /// The number of lists that were opened before it.
    pub opened: u64,

    /// The number of lists that were closed before it.
    pub closed: u64,
}

impl Place {
    ghost use Rattle.wp_lex.specs.Places.{place_at, place_behind, depth_of, is_outside, IsCounted};

    /// The first place of a text.
    pub fn start() -> Place
        ensures { result ≡ place_at [] 0 }
    {
        Place {
            at: 0,
            continues: false,
            opened: 0,
            closed: 0,
        }
    }

    /// The place behind this one, at which a byte of the class stands.
    pub fn behind(self, class: Class) -> Place
        requires { IsCounted self }
        ensures { result ≡ place_behind class self }
    {
        Place {
            at: self.at + 1,
            continues: is_letter(class),
            opened: self.opened + u64::from(is_opening(class)),
            closed: self.closed + u64::from(is_closing(class)),
        }
    }

    /// The number of lists that stand open.
    pub fn depth(self) -> u64
        ensures { result ≡ depth_of self }
    {
        self.opened.saturating_sub(self.closed)
    }

    pub fn is_outside(self) -> bool
        ensures { result ≡ is_outside self }
    {
        self.depth() == 0
    }
}

/// What the byte is for, outside a comment.
pub fn class_of(byte: u8) -> Class
    ensures { result ≡ class_of byte }
{
    match byte {
        b'(' => Class::Opens,
        b')' => Class::Closes,
        b';' | 9..=13 | b' ' => Class::Blank,
        33..=126 => Class::Letter,
        _ => Class::Bad,
    }
}

/// What the byte is for, in a comment or outside.
pub fn class_in(commented: bool, byte: u8) -> Class
    ensures { result ≡ (if commented then Blank else class_of byte) }
{
    if commented {
        Class::Blank
    } else {
        class_of(byte)
    }
}

pub fn is_letter(class: Class) -> bool
    ensures { result ≡ is_letter class }
{
    matches!(class, Class::Letter)
}

pub fn is_opening(class: Class) -> bool
    ensures { result ≡ is_opening class }
{
    matches!(class, Class::Opens)
}

pub fn is_closing(class: Class) -> bool
    ensures { result ≡ is_closing class }
{
    matches!(class, Class::Closes)
}
