//! What is lent to the store: novelty tables, known to it by what they mean alone.
ghost use Rattle.wp_novel.specs.NoveltyTables.{NoveltyTables};

use wp_novel::Tables;
use wp_tuples::Places;

/// What means novelty tables.
// No method stands here, and no supertrait: the store calls nothing of the tables itself.
pub(crate) trait Shown {
    ghost shown: { Self → NoveltyTables };
}

impl<P: Places> Shown for Tables<P> {
    ghost use Rattle.wp_novel.specs.NoveltyTables.{placed};

    ghost shown = { placed P.places };
}
