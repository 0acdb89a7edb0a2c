// Files in memory.
ghost use Rattle.std.specs.Prelude.{◌≡◌, ◌++◌, ◌≤◌, ◌==◌, ℕ, List, length, true, IfOk, Some, None, option_map, option_copied, slice_get, unwrap_or, [], ◌∷◌};
ghost use Rattle.std.specs.Str.{bytes_eq};
ghost use Rattle.px_base.specs.Contents.{content_of, Unchanged};
ghost use Rattle.px_base.specs.Folders.{holds, files_at, states_behind};

use crate::{Content, Files, FilesFault, List, Mem, Text};
use std::alloc::Global;

/// Files in memory: states of names and contents. A turn goes to the next state, and the last stays. The calls whose
/// numbers are on the list of failures fail; reads and puts are counted in one row.
#[derive(Drop)]
pub struct MemFiles {
    alloc: Global,
    states: List<List<(Text, Text)>>,
    at: usize,
    // What was put into the present state, the newest first.
    puts: Vec<(Text, Text)>,
    fails: Vec<u64>,
    calls: u64,
    read_faults: u64,
    put_faults: u64,
    put_count: u64,
    read_count: u64,
    turn_count: u64,
}

impl MemFiles {
    /// Files in the first state. An empty list is one state without files.
    pub fn new(
        alloc: Global,
        states: List<List<(Text, Text)>>,
        fails: &[u64],
    ) -> Result<MemFiles, Mem>
        ensures tells { IfOk result (λ files. ((⟦<MemFiles as Files>⟧.state files).tells ≡ true) × ((⟦<MemFiles as Files>⟧.state files).tells_later ≡ true)) }
        ensures contents { IfOk result (λ files. Unchanged (holds (files_at states 0)) (⟦<MemFiles as Files>⟧.state files).contents) }
        ensures later { IfOk result (λ files. (⟦<MemFiles as Files>⟧.state files).later ≡ states_behind states 0) }
        ensures no_puts { IfOk result (λ files. (⟦<MemFiles as Files>⟧.state files).puts ≡ 0) }
        ensures no_reads { IfOk result (λ files. (⟦<MemFiles as Files>⟧.state files).reads ≡ 0) }
        ensures no_turns { IfOk result (λ files. (⟦<MemFiles as Files>⟧.state files).turns ≡ 0) }
        ensures no_faults { IfOk result (λ files. ((⟦<MemFiles as Files>⟧.state files).read_faults ≡ 0) × ((⟦<MemFiles as Files>⟧.state files).put_faults ≡ 0)) }
        ensures steady { IfOk result (λ files. (⟦<MemFiles as Files>⟧.state files).steady ≡ (length fails.now == 0)) }
    {
        Ok(MemFiles {
            alloc,
            states,
            at: 0,
            puts: Vec::new(alloc),
            fails: fails.to_vec(alloc)?,
            calls: 0,
            read_faults: 0,
            put_faults: 0,
            put_count: 0,
            read_count: 0,
            turn_count: 0,
        })
    }

    /// What a name holds now.
    #[tactic(auto, using(crate::proofs::FolderLemmas::folder_rules))]
    fn find(&self, name: &[u8]) -> Option<&Text>
        ensures { option_copied result ≡ holds (self.now.puts.items ++ files_at self.now.states self.now.at) name.now }
    {
        match lookup(self.puts.as_slice(), name) {
            Some(bytes) => Some(bytes),
            None => lookup(state(self.states.as_slice(), self.at), name),
        }
    }
}

/// The files of the state at a place.
fn state(states: &[List<(Text, Text)>], at: usize) -> &[(Text, Text)]
    ensures { result.now ≡ files_at states.now at }
{
    if at < states.len() {
        states[at].as_slice()
    } else {
        &[]
    }
}

/// The contents of the first file of a name.
fn lookup<'a>(files: &'a [(Text, Text)], name: &[u8]) -> Option<&'a Text>
    ensures { option_copied result ≡ holds files.now name.now }
{
    'files: for (file, bytes) in files {
        if file.as_bytes() == name {
            return Some(bytes);
        }
    }
    None
}

fn content(alloc: Global, found: Option<&Text>, limit: u64) -> Result<Content, Mem>
    ensures { IfOk result (λ c. c ≡ content_of limit (option_copied found.entry)) }
{
    match found {
        None => Ok(Content::Missing),
        Some(bytes) => {
            if bytes.len() as u64 <= limit {
                Ok(Content::Found(Text::from_bytes(alloc, bytes.as_bytes())?))
            } else {
                Ok(Content::Over)
            }
        }
    }
}

fn new_file(alloc: Global, name: &[u8], bytes: &[u8]) -> Result<(Text, Text), Mem>
    ensures { IfOk result (λ f. (f.0 ≡ name.now) × (f.1 ≡ bytes.now)) }
{
    Ok((
        Text::from_bytes(alloc, name)?,
        Text::from_bytes(alloc, bytes)?,
    ))
}

impl Files for MemFiles {
    ghost state = { λ m. record {
      tells = true;
      contents = holds (m.puts.items ++ files_at m.states m.at);
      tells_later = true;
      later = states_behind m.states m.at;
      read_faults = m.read_faults;
      put_faults = m.put_faults;
      puts = m.put_count;
      reads = m.read_count;
      turns = m.turn_count;
      steady = length m.fails.items == 0;
    } };

    fn turn(&mut self) -> bool {
        self.turn_count = self.turn_count.saturating_add(1);
        if self.states.len() > 0 && self.at < self.states.len() - 1 {
            self.at += 1;
            self.puts.clear();
        }
        true
    }

    fn read(&mut self, name: &str, limit: u64) -> Result<Content, FilesFault> {
        self.read_count = self.read_count.saturating_add(1);
        let call = self.calls;
        self.calls = self.calls.saturating_add(1);
        if self.fails.contains(&call) {
            self.read_faults = self.read_faults.saturating_add(1);
            return Err(FilesFault::Failed);
        }
        match content(self.alloc, self.find(name.as_bytes()), limit) {
            Ok(content) => Ok(content),
            Err(Mem) => Err(FilesFault::Mem),
        }
    }

    fn put(&mut self, name: &str, bytes: &[u8]) -> Result<(), FilesFault> {
        self.put_count = self.put_count.saturating_add(1);
        let call = self.calls;
        self.calls = self.calls.saturating_add(1);
        if self.fails.contains(&call) {
            self.put_faults = self.put_faults.saturating_add(1);
            return Err(FilesFault::Failed);
        }
        match new_file(self.alloc, name.as_bytes(), bytes) {
            Ok(file) => match self.puts.insert(0, file) {
                Ok(()) => Ok(()),
                Err(_) => Err(FilesFault::Mem),
            },
            Err(Mem) => Err(FilesFault::Mem),
        }
    }
}
