//! Which calls of a form over memory fail.

ghost use Rattle.std.specs.Prelude.{◌≡◌};
ghost use Rattle.dc_outer.specs.Causes.{next_count};
ghost use Rattle.dc_outer.specs.Memory.{is_listed};

use dc_text::DcList;

// The calls of an object: the numbers of those that fail, and how many were made.
#[derive(Debug, Drop)]
pub(crate) struct Calls {
    pub(crate) failing: DcList<u64>,
    pub(crate) made: u64,
}

impl Calls {
    pub(crate) fn new(failing: DcList<u64>) -> Calls
        ensures failing { result.failing ≡ failing }
        ensures made { result.made ≡ 0 }
    {
        Calls { failing, made: 0 }
    }

    // Counts a call, and tells whether it fails. The first has the number 0.
    pub(crate) fn next_fails(&mut self) -> bool
        ensures listed { result ≡ is_listed self.old.failing self.old.made }
        ensures failing { self.new.failing ≡ self.old.failing }
        ensures made { self.new.made ≡ next_count self.old.made }
    {
        let call = self.made;
        self.made = call.saturating_add(1);
        self.failing.as_slice().contains(&call)
    }
}
