// The limits of 26, one by one.
ghost use Rattle.std.specs.Prelude.{◌≡◌, ◌+◌, not, ◌||◌, ltb};
ghost use Rattle.layout.specs.Layout.{most_steps, most_preds, most_links};

// A step over 1,023.
pub fn is_late(v: usize) -> bool
    ensures { result ≡ not (ltb v most_steps) }
{
    v >= layout::MOST_STEPS
}

// A ninth link in the line, or the 4,097th of all, of which so many stand before.
pub fn has_too_many(links: usize, before: usize) -> bool
    ensures { result ≡ (ltb most_preds links || ltb most_links (before + links)) }
{
    links > layout::MOST_PREDS || before > layout::MOST_LINKS - links
}
