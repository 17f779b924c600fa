// A disk with a folder, on which calls fail, programs are killed, and the machine stops.
ghost use Rattle.std.specs.Prelude.{⊤};

use mv_commands::{Found, Hold, Looks, Notice, Place, Seen, Sort, Tell};
use std::alloc::Allocator;
use std::cell::Cell;
use std::fs::{Metadata, OpenFile, OpenOptions, Permissions};
use std::io::{self, ErrorKind, Read, Seek, SeekFrom, Write};
use std::path::PathBuf;
use std::rt::Files;

/// The names that a file of the folder may have. The first is the ledger's.
const NAMES: [&str; 9] = [
    LEDGER,
    ".moveledger-lock-ledger",
    ".moveledger-new-ledger",
    "ledger.previous",
    "ledger.previous-1",
    "ledger.previous-2",
    "ledger.unsaved",
    "ledger.unsaved-1",
    "other",
];

/// The name that is given, and a link that leads to it.
pub const LEDGER: &str = "ledger";

pub const LINK: &str = "link";

/// The most bytes of a file.
const MOST: usize = 8;

/// What a file has.
#[derive(Clone, Copy, Debug, PartialEq, Eq)]
pub struct Text {
    bytes: [u8; MOST],
    length: usize,
}

const EMPTY: Text = Text {
    bytes: [0; MOST],
    length: 0,
};

impl Text {
    /// A text of few bytes.
    pub fn of(bytes: &[u8]) -> Self {
        let mut text = EMPTY;
        for (at, byte) in bytes.iter().enumerate() {
            text.put(at, *byte);
        }
        text
    }

    /// Puts a byte to a place.
    fn put(&mut self, at: usize, byte: u8) {
        if let Some(place) = self.bytes.get_mut(at) {
            *place = byte;
            self.length = self.length.max(at.saturating_add(1));
        }
    }
}

/// A file: what it has, and what of that is on the disk; which program holds it.
#[derive(Clone, Copy, Debug, PartialEq, Eq)]
struct Inode {
    text: Text,
    synced: Text,
    holder: u8,
}

const NO_FILE: Inode = Inode {
    text: EMPTY,
    synced: EMPTY,
    holder: 0,
};

/// Which file each name leads to.
type Names = [Option<usize>; 9];

/// What happens at a call.
#[derive(Clone, Copy, Debug, PartialEq, Eq)]
pub enum Event {
    /// Nothing.
    Nothing,
    /// It fails.
    Fails,
    /// The program is killed.
    Killed,
    /// The machine stops. Of what wasn't synced nothing is left.
    Stops,
    /// The machine stops. Of what wasn't synced the names are left, and not what is in files.
    StopsWithNames,
    /// Somebody moves another ledger into the place.
    Moved,
}

/// The disk.
#[derive(Drop)]
pub struct Disk {
    names: Cell<Names>,
    /// The names that are on the disk.
    synced: Cell<Names>,
    inodes: Cell<[Inode; 12]>,
    count: Cell<usize>,
    /// How many calls there were, and what happens at which.
    calls: Cell<u32>,
    event: Event,
    at: u32,
    /// How many there were before the ledger was loaded.
    loaded: Cell<u32>,
    /// Whether the machine has stopped, and which program was killed.
    ended: Cell<u8>,
    /// Which names were told.
    told: Cell<[bool; 9]>,
}

impl Disk {
    /// A disk on which this happens at a call.
    pub fn new(event: Event, at: u32) -> Self {
        Disk {
            names: Cell::new([None; 9]),
            synced: Cell::new([None; 9]),
            inodes: Cell::new([NO_FILE; 12]),
            count: Cell::new(0),
            calls: Cell::new(0),
            event,
            at,
            loaded: Cell::new(0),
            ended: Cell::new(0),
            told: Cell::new([false; 9]),
        }
    }

    /// Puts a file there, which is on the disk.
    pub fn has(&self, name: &str, text: &[u8]) {
        let number = self.made();
        let text = Text::of(text);
        self.change(number, |inode| {
            inode.text = text;
            inode.synced = text;
        });
        self.lead(name, Some(number));
        self.synced.set(self.names.get());
    }

    /// How many calls there were.
    pub fn called(&self) -> u32 {
        self.calls.get()
    }

    /// Notes that by now the ledger is loaded.
    pub fn is_loaded(&self) {
        self.loaded.set(self.calls.get());
    }

    /// How many calls there were before the ledger was loaded.
    pub fn loaded(&self) -> u32 {
        self.loaded.get()
    }

    /// What a file has, by its name.
    pub fn text(&self, name: &str) -> Option<Text> {
        Some(self.inode(self.led(name)?)?.text)
    }

    /// Whether this stands under the ledger's name, or under one that was told.
    pub fn keeps(&self, text: &[u8]) -> bool {
        let (told, wanted) = (self.told.get(), Some(Text::of(text)));
        NAMES.iter().zip(told.iter()).any(|(name, told)| (*name == LEDGER || *told)
            && self.text(name) == wanted)
    }

    /// Whether there is a name that no program leaves when it has ended by itself.
    pub fn has_leftovers(&self) -> bool {
        self.led(".moveledger-lock-ledger").is_some()
            || self.led(".moveledger-new-ledger").is_some()
    }

    /// A new file.
    fn made(&self) -> usize {
        let number = self.count.get();
        self.count.set(number.saturating_add(1));
        number
    }

    fn inode(&self, number: usize) -> Option<Inode> {
        self.inodes.get().get(number).copied()
    }

    fn change<F: FnOnce(&mut Inode)>(&self, number: usize, change: F)
        requires { F.IsAlwaysCallable change }
    {
        let mut inodes = self.inodes.get();
        if let Some(inode) = inodes.get_mut(number) {
            change(inode);
        }
        self.inodes.set(inodes);
    }

    /// The number of the file that a name leads to.
    fn led(&self, name: &str) -> Option<usize> {
        let name = plain(name);
        let names = self.names.get();
        for (known, number) in NAMES.iter().zip(names.iter()) {
            if *known == name {
                return *number;
            }
        }
        None
    }

    /// Leads a name to a file, or to none.
    fn lead(&self, name: &str, number: Option<usize>) {
        let name = plain(name);
        let mut names = self.names.get();
        for (known, place) in NAMES.iter().zip(names.iter_mut()) {
            if *known == name {
                *place = number;
            }
        }
        self.names.set(names);
    }

    /// What a name leads to, in the words of a disk.
    fn found(&self, number: usize) -> Found {
        let length = match self.inode(number) {
            Some(inode) => inode.text.length as u64,
            None => 0,
        };
        Found {
            sort: Sort::File,
            seen: Seen {
                place: Place {
                    device: 1,
                    number: number as u64,
                },
                length,
                seconds: 0,
                nanoseconds: 0,
            },
            mode: 0o644,
            owner: 0,
            group: 0,
        }
    }

    /// Counts a call of a program, and says whether it goes well. Only to the first program something happens.
    fn call(&self, who: u8) -> io::Result<()> {
        if self.ended.get() == who {
            return Err(io::Error::from(ErrorKind::Other));
        }
        self.calls.set(self.calls.get().saturating_add(1));
        if self.calls.get() != self.at || who != 1 {
            return Ok(());
        }
        match self.event {
            Event::Nothing => Ok(()),
            Event::Moved => {
                // Who finds a new ledger there lets it be.
                let is_new = !matches!(self.led(LEDGER), None | Some(0));
                if self.led("other").is_some() && !is_new {
                    self.lead(LEDGER, self.led("other"));
                    self.lead("other", None);
                    self.synced.set(self.names.get());
                }
                Ok(())
            }
            Event::Fails => Err(io::Error::from_raw_os_error(5)),
            Event::Killed | Event::Stops | Event::StopsWithNames => {
                self.ends(who);
                Err(io::Error::from(ErrorKind::Other))
            }
        }
    }

    /// Ends a program, and takes away what isn't on the disk if the machine stops.
    fn ends(&self, who: u8) {
        self.ended.set(who);
        let mut inodes = self.inodes.get();
        for inode in inodes.iter_mut() {
            if inode.holder == who {
                inode.holder = 0;
            }
            if self.event != Event::Killed {
                inode.text = inode.synced;
            }
        }
        self.inodes.set(inodes);
        if self.event == Event::Stops {
            self.names.set(self.synced.get());
        }
    }
}

/// A name of the folder that the program runs in; the link is the ledger.
fn plain(name: &str) -> &str {
    let name = name.strip_prefix("./").unwrap_or(name);
    if name == LINK { LEDGER } else { name }
}

impl Tell for Disk {
    fn tell(&self, notice: Notice<'_>) {
        let name = match notice {
            Notice::Previous(name) | Notice::Earlier(name) | Notice::Unsaved(name) => plain(name),
            Notice::Unconfirmed(_) | Notice::Placed(_) => return,
        };
        let mut told = self.told.get();
        for (known, place) in NAMES.iter().zip(told.iter_mut()) {
            if *known == name {
                *place = true;
            }
        }
        self.told.set(told);
    }
}

/// A file of the disk that is open; None is the folder.
#[derive(Drop)]
pub struct Open<'a> {
    disk: &'a Disk,
    who: u8,
    number: Option<usize>,
    at: usize,
}

impl Read for Open<'_> {
    fn read(&mut self, buf: &mut [u8]) -> io::Result<usize> {
        self.disk.call(self.who)?;
        let Some(inode) = self.number.and_then(|number| self.disk.inode(number)) else {
            return Ok(0);
        };
        match (buf.first_mut(), inode.text.bytes.get(self.at)) {
            (Some(place), Some(byte)) if self.at < inode.text.length => {
                *place = *byte;
                self.at = self.at.saturating_add(1);
                Ok(1)
            }
            _ => Ok(0),
        }
    }
}

impl Write for Open<'_> {
    // A part at a time: one byte.
    fn write(&mut self, buf: &[u8]) -> io::Result<usize> {
        self.disk.call(self.who)?;
        let (Some(number), Some(byte)) = (self.number, buf.first()) else {
            return Ok(0);
        };
        let (at, byte) = (self.at, *byte);
        self.disk.change(number, |inode| inode.text.put(at, byte));
        self.at = self.at.saturating_add(1);
        Ok(1)
    }

    fn flush(&mut self) -> io::Result<()> {
        Ok(())
    }
}

impl Seek for Open<'_> {
    fn seek(&mut self, _to: SeekFrom) -> io::Result<u64> {
        self.at = 0;
        Ok(0)
    }
}

impl OpenFile for Open<'_> {
    fn metadata(&self) -> io::Result<Metadata> {
        Ok(Metadata::of_file(0))
    }

    fn set_len(&self, _size: u64) -> io::Result<()> {
        Ok(())
    }

    fn sync_all(&self) -> io::Result<()> {
        self.disk.call(self.who)?;
        match self.number {
            Some(number) => self.disk.change(number, |inode| inode.synced = inode.text),
            None => self.disk.synced.set(self.disk.names.get()),
        }
        Ok(())
    }

    fn sync_data(&self) -> io::Result<()> {
        self.sync_all()
    }

    fn set_permissions(&self, _perm: Permissions) -> io::Result<()> {
        self.disk.call(self.who)
    }
}

impl Hold for Open<'_> {
    ghost is_held = { λ _. ⊤ };

    fn try_hold(&self) -> io::Result<bool> {
        self.disk.call(self.who)?;
        let Some(number) = self.number else {
            return Ok(false);
        };
        let holder = match self.disk.inode(number) {
            Some(inode) => inode.holder,
            None => 0,
        };
        if holder != 0 && holder != self.who {
            return Ok(false);
        }
        let who = self.who;
        self.disk.change(number, |inode| inode.holder = who);
        Ok(true)
    }

    fn found(&self) -> io::Result<Found> {
        self.disk.call(self.who)?;
        Ok(self.disk.found(self.number.unwrap_or(0)))
    }

    fn give_to(&self, _owner: Option<u32>, _group: u32) -> io::Result<()> {
        self.disk.call(self.who)
    }
}

/// A program on this disk.
#[derive(Clone, Copy)]
pub struct Program<'a> {
    pub disk: &'a Disk,
    pub who: u8,
}

impl<'a> Program<'a> {
    fn led(&self, path: &str) -> io::Result<usize> {
        match self.disk.led(path) {
            Some(number) => Ok(number),
            None => Err(io::Error::from(ErrorKind::NotFound)),
        }
    }
}

impl Looks for Program<'_> {
    fn look(&self, path: &str) -> io::Result<Option<Found>> {
        let disk = self.disk;
        disk.call(self.who)?;
        Ok(disk.led(path).map(|number| disk.found(number)))
    }

    fn look_through(&self, path: &str) -> io::Result<Option<Found>> {
        self.look(path)
    }
}

impl<'a> Files for Program<'a> {
    type File = Open<'a>;

    type Dir = io::Empty;

    fn open_file(&self, how: &OpenOptions, path: &str) -> io::Result<Open<'a>> {
        let disk = self.disk;
        disk.call(self.who)?;
        let number = if path == "." {
            None
        } else if how.asks_create_new() {
            if disk.led(path).is_some() {
                return Err(io::Error::from(ErrorKind::AlreadyExists));
            }
            let number = disk.made();
            disk.lead(path, Some(number));
            Some(number)
        } else {
            Some(self.led(path)?)
        };
        Ok(Open {
            disk,
            who: self.who,
            number,
            at: 0,
        })
    }

    fn open_dir(&self, _path: &str) -> io::Result<io::Empty> {
        Ok(io::empty())
    }

    fn metadata(&self, _path: &str) -> io::Result<Metadata> {
        Err(io::Error::from(ErrorKind::Unsupported))
    }

    fn symlink_metadata(&self, _path: &str) -> io::Result<Metadata> {
        Err(io::Error::from(ErrorKind::Unsupported))
    }

    fn copy(&self, _from: &str, _to: &str) -> io::Result<u64> {
        Err(io::Error::from(ErrorKind::Unsupported))
    }

    fn rename(&self, from: &str, to: &str) -> io::Result<()> {
        self.disk.call(self.who)?;
        let number = self.led(from)?;
        self.disk.lead(from, None);
        self.disk.lead(to, Some(number));
        Ok(())
    }

    fn remove_file(&self, path: &str) -> io::Result<()> {
        self.disk.call(self.who)?;
        let _ = self.led(path)?;
        self.disk.lead(path, None);
        Ok(())
    }

    fn create_dir(&self, _path: &str) -> io::Result<()> {
        Err(io::Error::from(ErrorKind::Unsupported))
    }

    fn remove_dir(&self, _path: &str) -> io::Result<()> {
        Err(io::Error::from(ErrorKind::Unsupported))
    }

    fn remove_dir_all<B: Allocator>(&self, _alloc: B, _path: &str) -> io::Result<()> {
        Err(io::Error::from(ErrorKind::Unsupported))
    }

    fn read_link<B: Allocator>(&self, alloc: B, path: &str) -> io::Result<PathBuf<B>> {
        self.disk.call(self.who)?;
        if path == LINK {
            return Ok(PathBuf::from_str(alloc, LEDGER)?);
        }
        Err(io::Error::from(ErrorKind::InvalidInput))
    }

    fn hard_link(&self, original: &str, link: &str) -> io::Result<()> {
        self.disk.call(self.who)?;
        let number = self.led(original)?;
        if self.disk.led(link).is_some() {
            return Err(io::Error::from(ErrorKind::AlreadyExists));
        }
        self.disk.lead(link, Some(number));
        Ok(())
    }
}
