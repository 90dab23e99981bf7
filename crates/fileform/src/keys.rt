// The keys of a month file's lines, each here once: the reader compares them and the writer writes them.
pub const MONTH: &[u8] = b"month";

pub const DAYS: &[u8] = b"days";

pub const NONZONE: &[u8] = b"nonzone";

pub const DAILY: &[u8] = b"daily";

pub const WEEKLY: &[u8] = b"weekly";

pub const MONTHLY: &[u8] = b"monthly";

pub const WEEKDAY: &[u8] = b"weekday";

pub const ZONE: &[u8] = b"zone";

pub const OWNER: &[u8] = b"owner";

pub const UNIT: &[u8] = b"unit";

pub const ACCOUNT: &[u8] = b"account";

pub const LOAD: &[u8] = b"load";

pub const PTP: &[u8] = b"ptp";

pub const FIRM: &[u8] = b"firm";

pub const END: &[u8] = b"end";
