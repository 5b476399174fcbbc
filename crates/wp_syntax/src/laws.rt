//! What holds of the definitions alone.

ghost use Rattle.wp_syntax.specs.Laws.{DomainsAreNamed, ProblemsAreNamed};
ghost use Rattle.wp_syntax.specs.Walk.{DomainFaultsWalk, FirstFaultsAreLeast, ProblemFaultsWalk};
ghost use Rattle.wp_syntax.specs.Grammatical.{PhrasesAreGrammatical, TextsAreGrammatical};

use wp_lex::{leaves_are_words, texts_rise};

/// The faults of a domain stand in the order of their places, and at one place in that of their kinds: the first is the least.
pub fn domain_faults_walk()
    ensures { DomainFaultsWalk }
{
    texts_rise();
}

/// So do those of a problem that are met on the way; those of missing items come behind them.
pub fn problem_faults_walk()
    ensures { ProblemFaultsWalk }
{
    texts_rise();
}

/// The first fault is the least by place and kind of all: so it is what a walk through the tree meets first.
pub fn first_faults_are_least()
    ensures { FirstFaultsAreLeast }
{
    texts_rise();
}

/// The names that a domain without a fault declares are words of its text, and no two of its actions have one name.
pub fn domains_are_named()
    ensures { DomainsAreNamed }
{
    leaves_are_words();
}

/// The objects that a problem without a fault declares are words of its text.
pub fn problems_are_named()
    ensures { ProblemsAreNamed }
{
    leaves_are_words();
}

/// A condition, a goal, an effect or a fact of `:init` is read without a fault exactly where the grammar has it.
pub fn phrases_are_grammatical()
    ensures { PhrasesAreGrammatical }
{}

/// A domain or a problem is read without a fault exactly where the grammar has it. So no record that is answered has more than its
/// limits, and what may stand once stands once.
pub fn texts_are_grammatical()
    ensures { TextsAreGrammatical }
{}
