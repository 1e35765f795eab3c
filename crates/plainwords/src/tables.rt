// The lines of an axis beside the table of a shift. They stand in a file of their own, since what the shift does to them is defined over them.
ghost use Rattle.std.specs.Prelude.{◌≤◌};
ghost use Rattle.plainwords.specs.Names.{Names};

// The lines along an axis, and for each position of a line the one that it takes its word from, 8 for none.
#[derive(Clone, Copy, Debug, PartialEq, Eq)]
pub(crate) struct Lines<'a> {
    pub side: usize,
    pub stride: usize,
    pub from: &'a [usize; 8],
    ghost least: { 1 ≤ side },
    ghost most: { side ≤ 8 },
    ghost names: { Names from.now },
}
