// Where a line below the header stands, and what is tested of it by that.
ghost use Rattle.std.specs.Prelude.{◌≡◌, not, ◌||◌, ◌+◌, ◌≤◌, ltb};
ghost use Rattle.layout.specs.Layout.{most_labels, most_preds, most_steps, most_links};
ghost use Rattle.log_line.specs.Step.{mislabelled};
ghost use Rattle.log_step.specs.Limits.{InLimits};

use log_line::limits::{has_too_many, is_late};

// The label count that the log is read under, the line's step, and how many links the steps before it have.
#[derive(Clone, Copy)]
pub struct Position {
    pub labels: u16,
    pub step: u16,
    pub links: u16,
    ghost few: { labels ≤ most_labels },
}

impl Position {
    // At the first step.
    pub fn start(labels: u16) -> Self
        requires { labels ≤ most_labels }
        ensures { (result.labels ≡ labels) × (result.step ≡ 0) × (result.links ≡ 0) }
    {
        Position {
            labels,
            step: 0,
            links: 0,
        }
    }

    // At the next step, where this one has so many links.
    pub fn after(&self, links: usize) -> Self
        requires { InLimits links self.now.step self.now.links }
        ensures { (result.labels ≡ self.now.labels) × (result.step ≡ self.now.step + 1) × (result.links ≡ self.now.links + links) }
    {
        Position {
            labels: self.labels,
            step: self.step + 1,
            links: self.links + links as u16,
        }
    }

    // Labels on step 0, or a label past the label count.
    pub fn is_mislabelled(&self, set: u16) -> bool
        ensures { result ≡ mislabelled self.now.labels self.now.step set }
    {
        if self.step == 0 {
            set != 0
        } else {
            !sets::within(set, self.labels)
        }
    }

    // A ninth link in the line, a step over 1,023, or the 4,097th link.
    pub fn is_over(&self, links: usize) -> bool
        ensures { result ≡ (ltb most_preds links || (not (ltb self.now.step most_steps) || ltb most_links (self.now.links + links))) }
    {
        is_late(usize::from(self.step)) || has_too_many(links, usize::from(self.links))
    }
}
