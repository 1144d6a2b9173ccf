ghost use Rattle.std.specs.Prelude.{◌≡◌, ◌≤◌, OnErr, Ok, Some, List, Option, ℕ, option_copied};
ghost use Rattle.cil_outside.specs.Causes.{Rose};
ghost use Rattle.cil_outside.specs.Outlet.{OutletPuts, OutletSends, put_content, put_of};
ghost use Rattle.cil_outside.specs.MemoryOutlet.{OutletKeeps, OutletTakes, fresh_outlet, outlet_called, outlet_failed};
ghost use Rattle.cil_outside.specs.MemoryOutlet.{outlet_fails, outlet_faults, outlet_puts, outlet_text};
ghost use Rattle.cil_outside.specs.declared.puts.PutFile.{PutFile};

use crate::outlet::{Outlet, Sent};
use crate::puts::{PutFile, add_file, add_untold, last_content};
use cil_base::{Bytes, List, NoMemory};
use std::alloc::Global;

/// An outlet in memory, which tells its text and its files. Its calls, of both kinds together, are numbered from 0, and
/// those of given numbers fail: a failing `text` takes the first half of its bytes, rounded down, and a failing `put`
/// leaves no file of its name.
#[derive(Drop)]
pub struct MemoryOutlet {
    text: Bytes,
    puts: List<PutFile>,
    failing: List<u64>,
    calls: u64,
    faults: u64,
}

impl MemoryOutlet {
    /// An outlet without text and files, whose calls with the numbers `failing` fail.
    pub fn new(alloc: Global, failing: Vec<u64>) -> MemoryOutlet
        ensures { result ≡ fresh_outlet failing.items }
    {
        MemoryOutlet {
            text: List::new(alloc),
            puts: List::new(alloc),
            failing: List::from_vec(failing),
            calls: 0,
            faults: 0,
        }
    }

    /// The text so far.
    pub fn written(&self) -> &[u8]
        ensures { result.now ≡ outlet_text self.now }
    {
        self.text.as_slice()
    }

    /// The bytes of the file of a name. None exactly where the name has no file.
    pub fn file(&self, name: &str) -> Option<&[u8]>
        ensures { option_copied result ≡ put_content (outlet_puts self.now) name.now }
    {
        last_content(self.puts.as_slice(), name.as_bytes())
    }

    /// Counts a call, and says whether it is to fail.
    fn count_call(&mut self) -> bool
        ensures fails { result ≡ outlet_fails self.old }
        ensures called { self.new ≡ outlet_called self.old }
    {
        let fails = self.failing.as_slice().contains(&self.calls);
        self.calls = self.calls.saturating_add(1);
        fails
    }

    /// Counts a fault.
    fn count_fault(&mut self) -> Sent
        ensures sent { result ≡ Sent.Failed }
        ensures failed { self.new ≡ outlet_failed self.old }
        ensures later { outlet_faults self.old ≤ outlet_faults self.new }
    {
        self.faults = self.faults.saturating_add(1);
        Sent::Failed
    }
}

impl Outlet for MemoryOutlet {
    ghost written = { λ o. Some (outlet_text o) };

    ghost puts = { λ o. Some (outlet_puts o) };

    ghost faults = { outlet_faults };

    fn text(&mut self, _alloc: Global, bytes: &[u8]) -> Result<Sent, NoMemory>
        ensures content { OutletSends (Some (outlet_text self.old)) (Some (outlet_text self.new)) bytes.now result }
        ensures puts { outlet_puts self.new ≡ outlet_puts self.old }
        ensures later { outlet_faults self.old ≤ outlet_faults self.new }
        ensures failed { result ≡ Ok Sent.Failed → Rose (outlet_faults self.old) (outlet_faults self.new) }
        ensures memory { OnErr result (outlet_faults self.new ≡ outlet_faults self.old) }
        ensures exact { OutletTakes self.old self.new bytes.now result }
    {
        if self.count_call() {
            self.text.extend(&bytes[..bytes.len() / 2])?;
            return Ok(self.count_fault());
        }
        self.text.extend(bytes)?;
        Ok(Sent::Done)
    }

    fn put(&mut self, alloc: Global, name: &str, bytes: &[u8]) -> Result<Sent, NoMemory>
        ensures content { OutletPuts (Some (outlet_puts self.old)) (Some (outlet_puts self.new))
            (put_of name.now bytes.now) result }
        ensures text { outlet_text self.new ≡ outlet_text self.old }
        ensures later { outlet_faults self.old ≤ outlet_faults self.new }
        ensures failed { result ≡ Ok Sent.Failed → Rose (outlet_faults self.old) (outlet_faults self.new) }
        ensures memory { OnErr result (outlet_faults self.new ≡ outlet_faults self.old) }
        ensures exact { OutletKeeps self.old self.new (put_of name.now bytes.now) result }
    {
        if self.count_call() {
            add_untold(alloc, &mut self.puts, name)?;
            return Ok(self.count_fault());
        }
        add_file(alloc, &mut self.puts, name, bytes)?;
        Ok(Sent::Done)
    }
}

#[cfg(test)]
mod tests {
    use super::*;
    use crate::sound_outlet::SoundOutlet;
    use std::test::Fail;

    /// Puts and writes by the trait alone; whether all was done.
    fn put_all<O: Outlet>(alloc: Global, out: &mut O, names: &[&str]) -> Result<bool, NoMemory> {
        let mut done = true;
        for name in names {
            let put = out.put(alloc, name, name.as_bytes())?;
            let sent = out.text(alloc, b"abc")?;
            done = done && matches!(put, Sent::Done) && matches!(sent, Sent::Done);
        }
        Ok(done)
    }

    #[test]
    fn a_file_holds_what_was_put_last(rt: HostRuntime) -> Result<(), Fail> {
        let alloc = rt.alloc();
        let mut out = MemoryOutlet::new(alloc, [3, 4].to_vec(alloc)?);
        assert!(rt;
            !put_all(alloc, &mut out, &["a", "b", "a"])?,
            "two calls fail"
        );
        assert_eq!(rt;
            out.written(),
            b"abcaabc".as_slice(),
            "the second text is cut off"
        );
        assert_eq!(rt; out.file("a"), None, "its last put failed");
        assert_eq!(rt; out.file("b"), Some(b"b".as_slice()));
        assert_eq!(rt; out.file("c"), None, "it was never put");
        let mut sound = SoundOutlet::new(alloc);
        assert!(rt; put_all(alloc, &mut sound, &["a", "a"])?);
        out.put(alloc, "a", b"new")?;
        sound.put(alloc, "a", b"new")?;
        assert_eq!(rt; out.file("a"), Some(b"new".as_slice()));
        assert_eq!(rt; sound.file("a"), Some(b"new".as_slice()));
        assert_eq!(rt; sound.file("b"), None);
        Ok(())
    }
}
