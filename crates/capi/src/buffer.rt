//! Writes bytes to the beginning of a buffer.
ghost use Rattle.std.specs.Prelude.{◌≡◌, ◌≤◌, ◌++◌, length, drop};
ghost use Rattle.capi.specs.Texts.{overwritten};

/// Copies `text` into `buffer`, or as many of its first bytes as there is room for. Stores the length of the whole
/// text, in bytes, in `needed`. Bytes of `buffer` after the text are unchanged.
pub fn put_text(text: &[u8], buffer: &mut [u8], needed: &mut usize)
    ensures needed { needed.new ≡ length text.now }
    ensures written { buffer.new ≡ overwritten text.now buffer.old }
{
    *needed = text.len();
    if text.len() < buffer.len() {
        buffer[..text.len()].copy_from_slice(text);
    } else {
        buffer.copy_from_slice(&text[..buffer.len()]);
    }
}

/// Copies `start` to the beginning of `room`. Later bytes are unchanged.
pub fn put_start(room: &mut [u8], start: &[u8])
    requires { length start.now ≤ length room.old }
    ensures { room.new ≡ start.now ++ drop (length start.now) room.old }
{
    room[..start.len()].copy_from_slice(start);
}
