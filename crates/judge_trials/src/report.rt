// The counts as lines, each with its name: an array of names beside one of counts, in one order, since both are indexed by what is drawn.
use crate::agree::Counts;
use row_counts::RowCounts;
use std::fmt;
use std::num::Wrapping;

const LOGS: [&str; 6] = [
    "that are chains",
    "that are trees",
    "with near links",
    "with links from the last eight steps",
    "with links from any steps",
    "with all of these",
];

impl fmt::Display for Counts {
    fn fmt<W: fmt::Write>(&self, f: &mut fmt::Formatter<W>) -> fmt::Result {
        writeln!(f, "patterns and logs judged by both: {}", self.pairs)?;
        list_lengths(f, "patterns with beads", &self.beads)?;
        for (name, count) in LOGS.iter().zip(&self.links) {
            writeln!(f, "  logs {name}: {count}")?;
        }
        writeln!(f, "rows: {}", self.rows)?;
        list_shown(f, &self.shown)?;
        writeln!(f, "pairs refused: {}", self.refused)?;
        writeln!(f, "numbers of the result that differ: {}", self.differing)?;
        writeln!(f, "counts that differ: {}", self.wrong_count)?;
        writeln!(
            f,
            "work buffers left with another number than 0: {}",
            self.not_cleared
        )?;
        writeln!(
            f,
            "rows with pivots picked from the front: {}",
            self.shown.front_chosen
        )
    }
}

// All but the last of the counts of rows: that one stands at the end of the report.
fn list_shown<W: fmt::Write>(f: &mut fmt::Formatter<W>, shown: &RowCounts) -> fmt::Result {
    list_lengths(f, "rows with the prefix of length", &shown.prefixes)?;
    list_lengths(f, "whole necklaces of length", &shown.whole)?;
    writeln!(
        f,
        "  rows with other pivots from the front: {}",
        shown.front
    )?;
    writeln!(f, "  rows in which a pivot stands twice: {}", shown.twice)?;
    writeln!(f, "  rows of step 0 with a prefix: {}", shown.start)
}

// A line for each length, from 1 on.
fn list_lengths<W: fmt::Write>(
    f: &mut fmt::Formatter<W>,
    name: &str,
    counts: &[Wrapping<u64>],
) -> fmt::Result {
    for (length, count) in (1u64..).zip(counts) {
        writeln!(f, "  {name} {length}: {count}")?;
    }
    Ok(())
}
