//! What the written query and its parts mean.
ghost use Rattle.std.specs.Prelude.{◌≡◌, Some};
ghost use Rattle.written_query_meaning.specs.Meaning.{HasRanks, HoldsCandidates, JudgesCandidates, MeansAnswer};
ghost use Rattle.query_meaning.specs.Valid.{IsValidBlock};

use pref_terms::Term;
use query_meaning::Block;

/// The law that the rows of the auxiliary query are the candidates in order, each with its used
/// values and what each leaf ranks it by.
pub fn holds_candidates(block: &Block, term: &Term)
    requires valid { IsValidBlock block.now }
    requires preferring { block.now.term ≡ Some term.now }
    ensures { HoldsCandidates block.now term.now }
{
    let _ = block;
    let _ = term;
}

/// The law that no rank and no code in these rows is NULL, and that a code is 0 exactly outside the
/// graph.
pub fn has_ranks(block: &Block, term: &Term)
    requires valid { IsValidBlock block.now }
    requires preferring { block.now.term ≡ Some term.now }
    ensures { HasRanks block.now term.now }
{
    let _ = block;
    let _ = term;
}

/// The law that for two candidates the better, the same and the group conditions say what the
/// preference does.
pub fn judges_candidates(block: &Block, term: &Term)
    requires valid { IsValidBlock block.now }
    requires preferring { block.now.term ≡ Some term.now }
    ensures { JudgesCandidates block.now term.now }
{
    let _ = block;
    let _ = term;
}

/// The law that the written query means the block's answer, over every set of tables that the block
/// fits.
pub fn means_answer(block: &Block)
    requires { IsValidBlock block.now }
    ensures { MeansAnswer block.now }
{
    let _ = &block.from;
}
