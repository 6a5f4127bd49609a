ghost use Rattle.std.specs.Prelude.{◌≡◌, ◌+◌, ◌<◌, ◌≤◌, length};

/// 24 pages of zeros that no module owns.
pub fn pages() -> [Option<[u8; 4096]>; 24] {
    [Some([0; 4096]); 24]
}

/// Writes bytes to a page, which is nobody's then.
pub fn put(pages: &mut [Option<[u8; 4096]>], page: usize, at: usize, bytes: &[u8])
    requires page { page < length pages.old }
    requires room { at + length bytes.now ≤ 4096 }
    ensures { length pages.new ≡ length pages.old }
{
    let mut content = match pages[page] {
        Some(content) => content,
        None => [0; 4096],
    };
    content[at..at + bytes.len()].copy_from_slice(bytes);
    pages[page] = Some(content);
}

/// Writes the text of a module of mode S to page 8, with one entry, 0x80010000, a private page of
/// code at virtual page 0x80010 and one of data behind it, and the bytes of pages 16 and 17.
pub fn put_module(pages: &mut [Option<[u8; 4096]>])
    requires { length pages.old ≡ 24 }
    ensures { length pages.new ≡ 24 }
{
    put(pages, 8, 0, &[0x42, 0x4e, 0x53, 0x47, 1, 1, 1, 2]);
    put(pages, 8, 16, &[0, 0, 1, 0x80, 0, 0, 0, 0]);
    put(pages, 8, 80, &[0x10, 0, 8, 0, 0, 0, 0, 0, 1, 5, 0]);
    put(pages, 8, 96, &[0x11, 0, 8, 0, 0, 0, 0, 0, 1, 3, 0]);
    put(pages, 16, 0, &[0x0b, 0x20, 0, 0]);
    put(pages, 17, 4088, &[1, 2, 3, 4, 5, 6, 7, 8]);
}

/// The module, with one byte of its text changed.
pub fn changed_module(at: usize, byte: u8) -> [Option<[u8; 4096]>; 24]
    requires { at < 4096 }
{
    let mut pages = pages();
    put_module(&mut pages);
    put(&mut pages, 8, at, &[byte]);
    pages
}

/// Writes tables to pages 1 to 3 by which virtual page 8 leads to page 8, page 16 to page 16, and
/// pages 17 and 18 to page 18.
pub fn put_tables(pages: &mut [Option<[u8; 4096]>])
    requires { length pages.old ≡ 24 }
    ensures { length pages.new ≡ 24 }
{
    put(pages, 1, 0, &0x20000801u64.to_le_bytes());
    put(pages, 2, 0, &0x20000c01u64.to_le_bytes());
    put(pages, 3, 8 * 8, &0x200020cfu64.to_le_bytes());
    put(pages, 3, 8 * 16, &0x200040cfu64.to_le_bytes());
    put(pages, 3, 8 * 17, &0x200048cfu64.to_le_bytes());
    put(pages, 3, 8 * 18, &0x200048cfu64.to_le_bytes());
}

/// Writes the text of a module to page 8 whose private pages are the virtual pages 16, 17 and 18,
/// with an entry in the first.
pub fn put_translated_module(pages: &mut [Option<[u8; 4096]>])
    requires { length pages.old ≡ 24 }
    ensures { length pages.new ≡ 24 }
{
    put(pages, 8, 0, &[0x42, 0x4e, 0x53, 0x47, 1, 1, 1, 3]);
    put(pages, 8, 16, &0x10000u64.to_le_bytes());
    put(pages, 8, 80, &[16, 0, 0, 0, 0, 0, 0, 0, 1, 5, 0]);
    put(pages, 8, 96, &[17, 0, 0, 0, 0, 0, 0, 0, 1, 3, 0]);
    put(pages, 8, 112, &[18, 0, 0, 0, 0, 0, 0, 0, 1, 3, 0]);
}
