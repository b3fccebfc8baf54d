//! What may stand where in an image.

ghost use Rattle.std.specs.Prelude.{◌≡◌, ℕ, ◌+◌, ◌*◌, ◌/◌, ◌%◌, ◌^◌, ◌<◌, ◌≤◌, ◌==◌, if◌then◌else◌, true, length};
ghost use Rattle.bc_image.specs.Items.{passes, is_finished, is_head, is_class, cause_of, advanced, superpage_ended, object_ended, one_stood, field_stood, IsProgress, IsSmallItem, first_progress};

use crate::fault::ImageCause;
use bc_model::Setup;
use bc_word::{class_of, unpack_head};

/// What the next item is.
#[derive(Clone, Copy, Debug, PartialEq, Eq)]
pub(crate) enum Stage {
    Magic,
    Version,
    Lanes,
    Domains,
    Slots,
    Superpages,
    Nursery,
    Buffer,
    Frames,
    Phases,
    Holder,
    Birth,
    Root,
    Pair,
    Count,
    Address,
    Head,
    Field,
    Finished,
}

/// How far an image was read, but for its lists.
#[derive(Clone, Copy, Debug)]
pub(crate) struct Progress {
    pub stage: Stage,
    pub version: u32,
    pub setup: Setup,
    pub phases: u32,
    /// How many holders, births or root slots stood.
    pub stood: u32,
    /// The superpage, what its objects are, and how many of them are left.
    pub superpage: u32,
    pub class: u32,
    pub domain: u32,
    pub left: u32,
    /// The least address of the next object.
    pub least: u32,
    /// Where the object lies that was begun, and how many of its fields are left.
    pub address: u32,
    pub fields: u32,
}

impl Progress {
    pub fn new() -> Self
        ensures { result ≡ first_progress }
    {
        Progress {
            stage: Stage::Magic,
            version: 0,
            setup: Setup {
                lanes: 1,
                domains: 1,
                slots: 1,
                superpages: 1,
                nursery: 0,
                buffer: 0,
                frames: 0,
            },
            phases: 0,
            stood: 0,
            superpage: 0,
            class: 0,
            domain: 0,
            left: 0,
            least: 0,
            address: 0,
            fields: 0,
        }
    }

    /// Whether the item may stand here, but for births that stand twice and references to nowhere.
    #[tactic(auto, unfolding(crate::specs::Items::passes))]
    pub fn passes(&self, births: &[u32], item: u64) -> bool
        requires progress { IsProgress self.now }
        requires births { self.now.stage ≡ Stage.Head → self.now.setup.lanes ≤ length births.now }
        ensures { result ≡ passes self.now births.now item }
    {
        let setup = self.setup;
        match self.stage {
            Stage::Magic => item == 0x6263_696d_6167_6531,
            Stage::Version => item >= 1 && item <= 3,
            Stage::Lanes => item >= 1 && item <= 16,
            Stage::Domains => item >= 1 && item <= 64,
            Stage::Slots => item >= 1 && item <= 256,
            Stage::Superpages => item >= 1 && item <= 4096,
            Stage::Nursery => item >= 1 && item <= 16,
            Stage::Buffer => item >= 1 && item <= 4096,
            Stage::Frames => {
                let chunks = setup.lanes * setup.nursery;
                item >= u64::from(chunks + 2) && item <= u64::from(chunks + 4 * setup.superpages)
            }
            Stage::Phases => item <= 4_294_967_295,
            Stage::Holder => item < u64::from(setup.lanes)
                || item == u64::from(setup.lanes) && self.version >= 2,
            Stage::Birth => item <= 4_000_000_000,
            Stage::Root => item == 0
                || item % 2 == 1
                || item / 2 <= u64::from(2048 * setup.superpages),
            Stage::Pair => item == 0
                || is_class(item % 256) && item / 256 < u64::from(setup.domains),
            Stage::Count => item >= 1 && item <= u64::from(2048 / self.class),
            Stage::Address => {
                item / 2048 == u64::from(self.superpage)
                    && item % u64::from(self.class) == 0
                    && item >= u64::from(self.least)
            }
            Stage::Head => item < 1 << 49 && self.is_head(births, item),
            Stage::Field => true,
            Stage::Finished => true,
        }
    }

    /// Whether the bits are a head of an object that may lie here.
    fn is_head(&self, births: &[u32], bits: u64) -> bool
        requires packed { bits < 2 ^ 49 }
        requires births { self.now.setup.lanes ≤ length births.now }
        ensures { result ≡ is_head self.now births.now bits }
    {
        let head = unpack_head(bits);
        head.lane < self.setup.lanes
            && head.serial >= 1
            && head.serial <= births[head.lane as usize]
            && head.domain == self.domain
            && class_of(head.fields) == self.class
    }

    /// Whether nothing more may stand.
    pub fn is_finished(&self) -> bool
        ensures { result ≡ is_finished self.now.stage }
    {
        matches!(self.stage, Stage::Finished)
    }

    /// What is wrong with an item that doesn't pass.
    pub fn cause(&self) -> ImageCause
        ensures { result ≡ cause_of self.now.stage }
    {
        match self.stage {
            Stage::Magic => ImageCause::Magic,
            Stage::Address | Stage::Head => ImageCause::Cell,
            _ => ImageCause::Range,
        }
    }

    /// After the last object of a superpage.
    fn superpage_ended(&mut self)
        requires { self.old.superpage + 1 < 2 ^ 32 }
        ensures { self.new ≡ superpage_ended self.old }
    {
        self.superpage += 1;
        self.stage = if self.superpage == self.setup.superpages {
            Stage::Finished
        } else {
            Stage::Pair
        };
    }

    /// After an object.
    fn object_ended(&mut self)
        requires more { 0 < self.old.left }
        requires address { self.old.address + self.old.class < 2 ^ 32 }
        requires superpage { self.old.superpage + 1 < 2 ^ 32 }
        ensures { self.new ≡ object_ended self.old }
    {
        self.left -= 1;
        self.least = self.address + self.class;
        self.stage = Stage::Address;
        if self.left == 0 {
            self.superpage_ended();
        }
    }

    /// After a holder, a birth or a root slot, of which there are so many.
    fn one_stood(&mut self, all: u32, next: Stage)
        requires { self.old.stood + 1 < 2 ^ 32 }
        ensures { self.new ≡ one_stood self.old all next }
    {
        self.stood += 1;
        if self.stood == all {
            self.stood = 0;
            self.stage = next;
        }
    }

    /// After a field, or after a head if there is none.
    fn field_stood(&mut self)
        requires more { 0 < self.old.left }
        requires address { self.old.address + self.old.class < 2 ^ 32 }
        requires superpage { self.old.superpage + 1 < 2 ^ 32 }
        ensures { self.new ≡ field_stood self.old }
    {
        if self.fields == 0 {
            self.object_ended();
        }
    }

    /// After what the objects of a superpage are, or after the 0 of one that has none.
    fn begin_superpage(&mut self, item: u64)
        requires small { item / 256 < 2 ^ 32 }
        requires superpage { self.old.superpage + 1 < 2 ^ 32 }
        ensures { self.new ≡ (if item == 0 then superpage_ended self.old else record self.old { class = item % 256; domain = item / 256; stage = Stage.Count }) }
    {
        if item == 0 {
            self.superpage_ended();
            return;
        }
        self.class = (item % 256) as u32;
        self.domain = (item / 256) as u32;
        self.stage = Stage::Count;
    }

    /// The item as a number, after which comes this.
    fn number(&mut self, item: u64, next: Stage) -> u32
        requires { item < 2 ^ 32 }
        ensures number { result ≡ item }
        ensures next { self.new ≡ record self.old { stage = next } }
    {
        self.stage = next;
        item as u32
    }

    /// After an item that passed.
    #[tactic(auto, unfolding(crate::specs::Items::advanced))]
    pub fn advance(&mut self, item: u64)
        requires progress { IsProgress self.old }
        requires fits { IsSmallItem self.old.stage item }
        ensures { self.new ≡ advanced self.old item }
    {
        match self.stage {
            Stage::Magic => self.stage = Stage::Version,
            Stage::Version => self.version = self.number(item, Stage::Lanes),
            Stage::Lanes => self.setup.lanes = self.number(item, Stage::Domains),
            Stage::Domains => self.setup.domains = self.number(item, Stage::Slots),
            Stage::Slots => self.setup.slots = self.number(item, Stage::Superpages),
            Stage::Superpages => self.setup.superpages = self.number(item, Stage::Nursery),
            Stage::Nursery => self.setup.nursery = self.number(item, Stage::Buffer),
            Stage::Buffer => self.setup.buffer = self.number(item, Stage::Frames),
            Stage::Frames => self.setup.frames = self.number(item, Stage::Phases),
            Stage::Phases => self.phases = self.number(item, Stage::Holder),
            Stage::Holder => self.one_stood(self.setup.domains, Stage::Birth),
            Stage::Birth => self.one_stood(self.setup.lanes, Stage::Root),
            Stage::Root => self.one_stood(self.setup.domains * self.setup.slots, Stage::Pair),
            Stage::Pair => self.begin_superpage(item),
            Stage::Count => {
                self.left = self.number(item, Stage::Address);
                self.least = 2048 * self.superpage;
            }
            Stage::Address => self.address = self.number(item, Stage::Head),
            Stage::Head => {
                self.fields = (item % 128) as u32;
                self.stage = Stage::Field;
                self.field_stood();
            }
            Stage::Field => {
                self.fields -= 1;
                self.field_stood();
            }
            Stage::Finished => {}
        }
    }
}

/// Whether the number is a size class.
fn is_class(number: u64) -> bool
    ensures { result ≡ is_class number }
{
    matches!(number, 2 | 4 | 8 | 16 | 32 | 64 | 128)
}
