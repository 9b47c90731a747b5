//! How much memory the program had.

use std::fs;

/// The most memory that this program had, in 1,024 bytes, where the system tells it.
pub(crate) fn peak_memory(rt: &HostRuntime) -> Option<u64> {
    let status = fs::read_to_string(rt, "/proc/self/status").ok()?;
    for line in status.lines() {
        if let Some(behind) = line.strip_prefix("VmHWM:") {
            let (number, _unit) = behind.trim().split_once(' ')?;
            return number.parse::<u64>().ok();
        }
    }
    None
}
