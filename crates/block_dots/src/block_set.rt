ghost use Rattle.std.specs.Prelude.{◌≡◌};
ghost use Rattle.block_dots.specs.BlockSets.{set_word};

/// A set of a block.
#[derive(Debug, Clone, Copy, PartialEq, Eq)]
pub enum BlockSet {
    /// What it generates and does not kill beyond.
    Gen,
    /// What its statements kill.
    Kill,
    /// What holds before its first statement.
    In,
    /// What holds behind its last statement.
    Out,
}

/// What stands between an analysis's name and the set.
pub fn set_word(set: BlockSet) -> &'static [u8]
    ensures { result.now ≡ set_word set }
{
    match set {
        BlockSet::Gen => b" gen: ",
        BlockSet::Kill => b" kill: ",
        BlockSet::In => b" IN: ",
        BlockSet::Out => b" OUT: ",
    }
}
