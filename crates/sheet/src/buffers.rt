// Lent memory with room for the parts of any sheet.
ghost use Rattle.std.specs.Prelude.{◌≤◌, length};

#[derive(Drop)]
pub struct Buffers<'a> {
    pub font: &'a mut [u8],
    pub name: &'a mut [u8],
    pub keep: &'a mut [u16],
    pub rec: &'a mut [u8],
    ghost font_room: { 16384 ≤ length font.now },
    ghost name_room: { 256 ≤ length name.now },
    ghost keep_room: { 1024 ≤ length keep.now },
    ghost rec_room: { 5120 ≤ length rec.now },
}
