// The links of a log buffer: those into a step, and the last step to which each step has a link.
#![tactic(auto)]

ghost use Rattle.std.specs.Prelude.{◌≡◌, ◌+◌, ◌<◌, ◌≤◌, length};
ghost use Rattle.lists.specs.Places.{at};
ghost use Rattle.layout.specs.Layout.{most_steps};
ghost use Rattle.log_buffer.specs.Meaning.{steps_in, links_into};
ghost use Rattle.log_links.specs.Links.{Laid, Begins, Inside, BareIf, Noted, LastTo};

// A log buffer whose links lie in order and inside it, and beside it the label sets of its steps. It holds the numbers and no `LogNumbers`: that is
// made by a test of the length, as an `Option`, and is not copied; a `Log` is of a buffer that has passed all tests, and each turn of a pass gets a
// copy.
#[derive(Clone, Copy)]
pub struct Log<'a> {
    pub numbers: &'a [u16],
    pub labels: &'a [u16],
    ghost laid: { Laid numbers.now },
    ghost long: { most_steps ≤ length labels.now },
}

impl<'a> Log<'a> {
    pub fn new(numbers: &'a [u16], labels: &'a [u16]) -> Log<'a>
        requires laid { Laid numbers.now }
        requires long { most_steps ≤ length labels.now }
        ensures { (result.numbers.now ≡ numbers.now) × (result.labels.now ≡ labels.now) }
    {
        Log { numbers, labels }
    }

    // How many steps there are.
    pub fn steps(self) -> usize
        ensures { result ≡ steps_in self.entry.numbers.now }
    {
        usize::from(self.numbers[0])
    }

    // The label set of the step x.
    pub fn labels(self, x: usize) -> u16
        requires { x < steps_in self.numbers.now }
        ensures { result ≡ at self.entry.labels.now x }
    {
        self.labels[x]
    }

    // Has the step no labels? Entering it then leaves every state as it is.
    #[tactic(auto, using(crate::proofs::LinkLaws::bare_if))]
    pub fn is_bare(self, x: usize) -> bool
        requires { x < steps_in self.numbers.now }
        ensures { BareIf self.entry.numbers.now self.entry.labels.now x result }
    {
        self.labels(x) == 0
    }

    // Where among the links those of the step v begin; after the last step, the link count.
    pub fn begin(self, v: usize) -> usize
        requires { v ≤ steps_in self.numbers.now }
        ensures { Begins self.entry.numbers.now v result }
    {
        usize::from(self.numbers[layout::BEGINS + v])
    }

    // The links into the step v: its predecessors.
    #[tactic(auto, using(crate::proofs::LinkLaws::links_small))]
    pub fn into_step(self, v: usize) -> &'a [u16]
        requires { v < steps_in self.numbers.now }
        ensures links { result.now ≡ links_into self.entry.numbers.now v }
        ensures inside { Inside most_steps result.now }
    {
        let from = self.begin(v);
        let to = self.begin(v + 1);
        &self.numbers[layout::LINKS + from..layout::LINKS + to]
    }
}

// Notes the step v for each listed step.
#[tactic(auto, using(crate::proofs::LastLaws::note_kit))]
fn note(links: &[u16], v: u16, last: &mut [u16])
    requires { Inside (length last.old) links.now }
    ensures { Noted links.now v last.old last.new }
{
    for u in links {
        last[usize::from(*u)] = v;
    }
}

// For each step the last one to which it has a link, 0 where there is none. Upwards, so that the last one stays.
#[tactic(auto, using(crate::proofs::LastLaws::last_kit))]
pub fn last_links(log: Log, last: &mut [u16])
    requires { most_steps ≤ length last.old }
    ensures { LastTo log.entry.numbers.now (steps_in log.entry.numbers.now) last.new }
{
    last.fill(0);
    for v in 0..log.steps() {
        note(log.into_step(v), v as u16, last);
    }
}
