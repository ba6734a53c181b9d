//! The fixed facts about an image, and its state after a history.

ghost use Rattle.std.specs.Prelude.{◌≡◌};

/// The fixed facts about an image: when it is loaded, and its TLS segment.
#[derive(Clone, Copy, PartialEq, Eq, Debug)]
pub struct ImageInfo {
    /// Whether a thread opens it; else it starts with the program.
    pub late: bool,
    /// Whether its code needs its block at a fixed distance from the thread pointer (`DF_STATIC_TLS`).
    pub statics: bool,
    /// The size of its TLS segment in bytes; 0 without one.
    pub size: u64,
    /// The alignment of its TLS segment; 1 without one.
    pub align: u64,
}

/// The state of one image after a history: its fixed facts, and its newest instance.
#[derive(Clone, Copy, PartialEq, Eq, Debug)]
pub struct Module {
    /// The fixed facts about the image.
    pub info: ImageInfo,
    /// Its number of uses: its opens minus its closes, and 1 for a startup image. It is loaded while this is not 0.
    pub uses: u64,
    /// The number of its newest instance, counted from 1.
    pub instance: u32,
    /// The module id of that instance, from 1 on.
    pub id: u64,
    /// How far below the thread pointer that instance's block begins, if the block is in the static surplus.
    pub offset: Option<u64>,
}

impl Module {
    ghost use Rattle.module_table.specs.Modules.{is_loaded, is_permanent};
    ghost use Rattle.module_table.specs.Past.{first_module, has_id};
    ghost use Rattle.module_table.specs.PastLaws.{has_instance};

    /// The module of a number without an image: it is not loaded, and cannot be.
    pub const NONE: Module = Module {
        info: ImageInfo {
            late: false,
            statics: false,
            size: 0,
            align: 1,
        },
        uses: 0,
        instance: 0,
        id: 0,
        offset: None,
    };

    /// An image before any event. A startup image is always loaded, and its number is its instance's and its module id.
    pub(crate) fn at_start(info: ImageInfo, image: u32) -> Module
        ensures { result ≡ first_module info image }
    {
        if info.late {
            return Module {
                info,
                ..Module::NONE
            };
        }
        Module {
            info,
            uses: 1,
            instance: image,
            id: u64::from(image),
            offset: None,
        }
    }

    /// Whether it is held open, or started with the program.
    pub fn is_loaded(&self) -> bool
        ensures { result ≡ is_loaded self.now }
    {
        self.uses > 0
    }

    /// Whether it is loaded as this instance.
    pub fn has_instance(&self, instance: u32) -> bool
        ensures { result ≡ has_instance instance self.now }
    {
        self.is_loaded() && self.instance == instance
    }

    /// Whether it is loaded with this module id.
    pub fn has_id(&self, id: u64) -> bool
        ensures { result ≡ has_id id self.now }
    {
        self.is_loaded() && self.id == id
    }

    /// Whether it started with the program, and stays.
    pub fn is_permanent(&self) -> bool
        ensures { result ≡ is_permanent self.now }
    {
        self.is_loaded() && !self.info.late
    }
}
