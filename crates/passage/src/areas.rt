// The memory of the program: nothing allocates.

// What the set lies in.
#[derive(Drop)]
pub(crate) struct Areas {
    pub(crate) index: [u64; 1024],
    pub(crate) filter: [u64; 256],
    pub(crate) starts: [u64; 256],
    pub(crate) lengths: [u64; 256],
    pub(crate) scratch: [u64; 128],
    pub(crate) arena: [u8; 32_768],
}

impl Areas {
    pub(crate) fn new() -> Areas {
        Areas {
            index: [0; 1024],
            filter: [0; 256],
            starts: [0; 256],
            lengths: [0; 256],
            scratch: [0; 128],
            arena: [0; 32_768],
        }
    }
}

// The bytes of key and value while a line is answered. 4,096 in each are enough for every line.
#[derive(Drop)]
pub(crate) struct KeyAndValue {
    pub(crate) key: [u8; 4096],
    pub(crate) value: [u8; 4096],
}

impl KeyAndValue {
    pub(crate) fn new() -> KeyAndValue {
        KeyAndValue {
            key: [0; 4096],
            value: [0; 4096],
        }
    }
}
