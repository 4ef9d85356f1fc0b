// Document 01, "Registers" (000, tables 2 and 3): the bits of each register byte.
pub const RI: u8 = 1 << 7;

pub const POR: u8 = 1 << 4;

pub const RECON: u8 = 1 << 2;

pub const TMA: u8 = 1 << 1;

pub const TA: u8 = 1;

// As a chaining row shows them.
pub const TRI: u8 = 1 << 7;

pub const SHOWN_RI: u8 = 1 << 6;

pub const SHOWN_TA: u8 = 1 << 5;

pub const TTA: u8 = 1;

pub const MYRECON: u8 = 1 << 7;

pub const DUPID: u8 = 1 << 6;

pub const RCVACT: u8 = 1 << 5;

pub const TOKEN: u8 = 1 << 4;

pub const EXCNAK: u8 = 1 << 3;

pub const TENTID: u8 = 1 << 2;

pub const RESET: u8 = 1 << 7;

pub const CCHEN: u8 = 1 << 6;

pub const TXEN: u8 = 1 << 5;

pub const RDDATA: u8 = 1 << 7;

pub const AUTO_INC: u8 = 1 << 6;

pub const CANCEL: u8 = 1 << 7;

pub const BROADCASTS: u8 = 1 << 6;

pub const LOW2: u8 = 3;

// The bits that have a name; the others are zero.
pub const STATUS: u8 = RI | POR | RECON | TMA | TA;

pub const DIAGNOSTIC: u8 = MYRECON | DUPID | RCVACT | TOKEN | EXCNAK | TENTID;

pub const MASK: u8 = RI | EXCNAK | RECON | TA;

pub const SETUP: u8 = 7;

pub const MODE: u8 = RDDATA | AUTO_INC | LOW2;
