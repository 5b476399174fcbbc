//! What a word may be, and which keyword it is.

ghost use Rattle.std.specs.Prelude.{◌≡◌};
ghost use Rattle.std.specs.Str.{bytes_eq};
ghost use Rattle.wp_syntax.specs.Word.{is_dash, is_keyword, is_name, is_reserved, is_connective, is_comparison, is_assignment, is_term, is_variable, starts_with_digit};
ghost use Rattle.wp_syntax.specs.Heads.{head_of, part_head_of, section_head_of, item_head_of, is_other_section, is_other_item};

use wp_edge::Text;

/// What the first word of a condition, a goal, an effect or a fact of `:init` says of it.
#[derive(Clone, Copy)]
pub enum Head {
    And,
    Not,
    Equal,
    /// Another word that the language reserves.
    Reserved,
    Name,
    Other,
}

/// The parts of an action.
#[derive(Clone, Copy)]
pub enum PartHead {
    Parameters,
    Precondition,
    Effect,
    Vars,
    Other,
}

/// The sections of a domain.
#[derive(Clone, Copy)]
pub enum SectionHead {
    Requirements,
    Types,
    Constants,
    Predicates,
    Action,
    /// A section of PDDL that this planner does not have.
    Unsupported,
    Other,
}

/// The items of a problem.
#[derive(Clone, Copy)]
pub enum ItemHead {
    Domain,
    Requirements,
    Objects,
    Init,
    Goal,
    /// An item of PDDL that this planner does not have.
    Unsupported,
    Other,
}

pub fn is_word(text: &Text, word: &[u8]) -> bool
    ensures { result ≡ bytes_eq text.now word.now }
{
    text.as_slice() == word
}

pub fn is_dash(text: &Text) -> bool
    ensures { result ≡ is_dash text.now }
{
    is_word(text, b"-")
}

/// Flags of `:requirements` begin so, and no name does.
pub fn is_keyword(text: &Text) -> bool
    ensures { result ≡ is_keyword text.now }
{
    match text.as_slice() {
        [first, ..] => *first == b':',
        [] => false,
    }
}

pub fn is_variable(text: &Text) -> bool
    ensures { result ≡ is_variable text.now }
{
    match text.as_slice() {
        [first, _, ..] => *first == b'?',
        _ => false,
    }
}

pub fn is_name(text: &Text) -> bool
    ensures { result ≡ is_name text.now }
{
    match text.as_slice() {
        [first, ..] => *first != b'?' && *first != b':' && !is_dash(text),
        [] => false,
    }
}

pub fn is_term(text: &Text) -> bool
    ensures { result ≡ is_term text.now }
{
    is_name(text) || is_variable(text)
}

pub fn starts_with_digit(text: &Text) -> bool
    ensures { result ≡ starts_with_digit text.now }
{
    match text.as_slice() {
        [first, ..] => b'0' <= *first && *first <= b'9',
        [] => false,
    }
}

fn is_connective(text: &Text) -> bool
    ensures { result ≡ is_connective text.now }
{
    is_word(text, b"and")
        || is_word(text, b"or")
        || is_word(text, b"not")
        || is_word(text, b"imply")
        || is_word(text, b"exists")
        || is_word(text, b"forall")
        || is_word(text, b"when")
        || is_word(text, b"preference")
        || is_word(text, b"either")
}

fn is_comparison(text: &Text) -> bool
    ensures { result ≡ is_comparison text.now }
{
    is_word(text, b"=")
        || is_word(text, b"<")
        || is_word(text, b">")
        || is_word(text, b"<=")
        || is_word(text, b">=")
}

fn is_assignment(text: &Text) -> bool
    ensures { result ≡ is_assignment text.now }
{
    is_word(text, b"increase")
        || is_word(text, b"decrease")
        || is_word(text, b"assign")
        || is_word(text, b"scale-up")
        || is_word(text, b"scale-down")
}

/// Words of the language. They are names too, and may name anything but a predicate.
pub fn is_reserved(text: &Text) -> bool
    ensures { result ≡ is_reserved text.now }
{
    is_connective(text) || is_comparison(text) || is_assignment(text)
}

pub fn head_of(text: &Text) -> Head
    ensures { result ≡ head_of text.now }
{
    if is_word(text, b"and") {
        Head::And
    } else if is_word(text, b"not") {
        Head::Not
    } else if is_word(text, b"=") {
        Head::Equal
    } else if is_reserved(text) {
        Head::Reserved
    } else if is_name(text) {
        Head::Name
    } else {
        Head::Other
    }
}

pub fn part_head_of(text: &Text) -> PartHead
    ensures { result ≡ part_head_of text.now }
{
    if is_word(text, b":parameters") {
        PartHead::Parameters
    } else if is_word(text, b":precondition") {
        PartHead::Precondition
    } else if is_word(text, b":effect") {
        PartHead::Effect
    } else if is_word(text, b":vars") {
        PartHead::Vars
    } else {
        PartHead::Other
    }
}

fn is_other_section(text: &Text) -> bool
    ensures { result ≡ is_other_section text.now }
{
    is_word(text, b":functions")
        || is_word(text, b":durative-action")
        || is_word(text, b":derived")
        || is_word(text, b":constraints")
}

pub fn section_head_of(text: &Text) -> SectionHead
    ensures { result ≡ section_head_of text.now }
{
    if is_word(text, b":requirements") {
        SectionHead::Requirements
    } else if is_word(text, b":types") {
        SectionHead::Types
    } else if is_word(text, b":constants") {
        SectionHead::Constants
    } else if is_word(text, b":predicates") {
        SectionHead::Predicates
    } else if is_word(text, b":action") {
        SectionHead::Action
    } else if is_other_section(text) {
        SectionHead::Unsupported
    } else {
        SectionHead::Other
    }
}

fn is_other_item(text: &Text) -> bool
    ensures { result ≡ is_other_item text.now }
{
    is_word(text, b":metric") || is_word(text, b":constraints") || is_word(text, b":length")
}

pub fn item_head_of(text: &Text) -> ItemHead
    ensures { result ≡ item_head_of text.now }
{
    if is_word(text, b":domain") {
        ItemHead::Domain
    } else if is_word(text, b":requirements") {
        ItemHead::Requirements
    } else if is_word(text, b":objects") {
        ItemHead::Objects
    } else if is_word(text, b":init") {
        ItemHead::Init
    } else if is_word(text, b":goal") {
        ItemHead::Goal
    } else if is_other_item(text) {
        ItemHead::Unsupported
    } else {
        ItemHead::Other
    }
}
