ghost use Rattle.std.specs.Prelude.{◌≡◌, ◌+◌, ◌-◌, ◌<◌, ◌≤◌, ◌^◌, ℕ, List};
ghost use Rattle.std.specs.Str.Lines.{lines};
ghost use Rattle.cwr_report.specs.Walks.{IsWalk, line_at};

use crate::latest::Latest;
use cwr_grammar::Lines;

/// A walk over lines, from the first on.
#[derive(Drop)]
pub struct Walk<'a> {
    /// The line that it has gone to, if there is one.
    line: Option<&'a [u8]>,
    /// The lines after that one.
    rest: Lines<'a>,
    /// The number of lines consumed.
    passed: u64,
    /// Whether it keeps what they say.
    keeps: bool,
    /// What they say, if it keeps that.
    pub(crate) latest: Latest,
}

impl<'a> Walk<'a> {
    /// At the first line. `keeps` says whether it keeps what the lines say.
    pub fn new(lines: Lines<'a>, keeps: bool) -> Walk<'a>
        ensures walk { IsWalk result lines.entry 0 }
        ensures keeps { result.keeps ≡ keeps }
    {
        let mut rest = lines;
        let line = rest.next();
        Walk {
            line,
            rest,
            passed: 0,
            keeps,
            latest: Latest::new(),
        }
    }

    /// Goes to the line at an index, counted from 0, among all the lines, and returns it; no bytes if there is none. It
    /// starts over if the line was consumed before.
    pub fn go_to(&mut self, all: Lines<'a>, index: u64) -> &'a [u8]
        requires { IsWalk self.old all self.old.passed }
        ensures walk { IsWalk self.new all.entry index }
        ensures keeps { self.new.keeps ≡ self.old.keeps }
        ensures line { result.now ≡ line_at all.entry index }
    {
        if index < self.passed {
            *self = Walk::new(all, self.keeps);
            return self.go_on_to(index);
        }
        self.go_on_to(index)
    }

    /// Goes to a line that was not consumed yet: it consumes the lines before it, and no more.
    fn go_on_to(&mut self, index: u64) -> &'a [u8]
        requires { self.old.passed ≤ index }
        ensures walk { (lines : List (List ℕ)) → IsWalk self.old lines self.old.passed → IsWalk self.new lines index }
        ensures keeps { self.new.keeps ≡ self.old.keeps }
        ensures line { (lines : List (List ℕ)) → IsWalk self.old lines self.old.passed → result.now ≡ line_at lines index }
    {
        while self.passed < index {
            self.pass_line();
        }
        self.line()
    }

    /// Consumes a line, if there is one more.
    fn pass_line(&mut self)
        requires { self.old.passed < 2 ^ 64 - 1 }
        ensures passed { self.new.passed ≡ self.old.passed + 1 }
        ensures keeps { self.new.keeps ≡ self.old.keeps }
        ensures walk { (lines : List (List ℕ)) → IsWalk self.old lines self.old.passed → IsWalk self.new lines self.new.passed }
    {
        self.passed += 1;
        match self.line {
            None => {}
            Some(line) => {
                self.latest.add_where(self.keeps, line);
                self.line = self.rest.next();
            }
        }
    }

    /// The line that it has gone to; no bytes if there is none.
    fn line(&self) -> &'a [u8]
        ensures { (lines : List (List ℕ)) (index : ℕ) → IsWalk self.now lines index → result.now ≡ line_at lines index }
    {
        match self.line {
            Some(line) => line,
            None => &[],
        }
    }
}

/// The line of a file with this number, counted from 1; no bytes if there is none.
pub fn line_of(bytes: &[u8], number: u64) -> &[u8]
    ensures { result.now ≡ line_at (lines bytes.now) (number - 1) }
{
    let mut walk = Walk::new(Lines::of(bytes), false);
    walk.go_to(Lines::of(bytes), number.saturating_sub(1))
}
