// The steps between the doings of a run by number.
ghost use Rattle.std.specs.Prelude.{◌<◌, ◌≤◌, ◌↔◌, IsTrue, length};
ghost use Rattle.rings.specs.Links.{In, Within, SentFrom};

// What leads to a doing: the machine's doing before, if it has one, and the number of the sending of what it gets.
#[derive(Clone, Copy)]
pub(crate) struct Link {
    pub(crate) own: bool,
    pub(crate) letter: Option<usize>,
}

// What leads to each number. By number and in no boxes: links go round in rings, and a search looks its table up by them.
#[derive(Drop)]
pub(crate) struct Links {
    pub(crate) of: Vec<Link>,
    ghost few: { length of.items ≤ 20000 },
    ghost within: { Within of.items },
}

impl Links {
    // The number of the sending of what w gets, if that is from s on.
    pub(crate) fn sent_from(&self, s: usize, w: usize) -> Option<usize>
        requires { w < length self.now.of.items }
        ensures { SentFrom self.now.of.items s w result }
    {
        self.of[w].letter.filter(|v| s <= *v)
    }

    // Does a step lead from v to w. Not inlined, since few of the numbers that `lowest_next` goes by are asked for.
    #[inline(never)]
    pub(crate) fn leads(&self, v: usize, w: usize) -> bool
        requires from { v < length self.now.of.items }
        requires to { w < length self.now.of.items }
        ensures { IsTrue result ↔ In self.now.of.items v w }
    {
        let link = self.of[w];
        link.letter == Some(v) || (link.own && w == v + 1)
    }
}
