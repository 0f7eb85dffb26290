// The C interface of PE headers, sections and mapping, declared in include/hullsift.h: each function calls a door, stores its values, and returns
// the number of its answer. A refusal sets the values to 0 and leaves lent bytes as they were.
#![tactic(auto)]

ghost use Rattle.std.specs.Prelude.{◌≡◌};
ghost use Rattle.answer.specs.Answer.{number, values};
ghost use Rattle.c_pe.specs.Numbers.{dos_header_of, halves_of};
ghost use Rattle.c_sections.specs.Sections.{read_sections_of};
ghost use Rattle.fields.specs.Answers.{answer_write_bytes};
ghost use Rattle.pe_coff.specs.Answers.{answer_read_coff_header, count_read_coff_header};
ghost use Rattle.pe_coff.specs.Coff.{read_of as read_coff_of};
ghost use Rattle.pe_dos.specs.Answers.{answer_read_dos_header, header_or_zeros};
ghost use Rattle.pe_dos.specs.Dos.{read_of as read_dos_of, write_of as write_dos_of, write_out as write_dos_out};
ghost use Rattle.pe_header.specs.Answers.{answer_open_header, count_open_header};
ghost use Rattle.pe_header.specs.Header.{open_of};
ghost use Rattle.pe_mapping.specs.Answers.{answer_find_offset, count_find_offset};
ghost use Rattle.pe_mapping.specs.Mapping.{find_offset_of};
ghost use Rattle.pe_optional.specs.Answers.{answer_read_optional_header, count_read_optional_header};
ghost use Rattle.pe_optional.specs.Optional.{read_of as read_optional_of};
ghost use Rattle.pe_section.specs.Answers.{answer_read_section_table, count_read_section_table};
ghost use Rattle.pe_section.specs.Section.{get_row_of};

use pe_dos::DosHeader;

// The DOS header at `at`: its 30 numbers of two bytes, and the PE pointer.
#[unsafe(no_mangle)]
pub extern "C" fn hullsift_read_dos_header(
    bytes: &[u8],
    at: usize,
    halves: &mut [u16; 30],
    pe_pointer: &mut u32,
) -> u8
    ensures answer { result ≡ number (answer_read_dos_header (read_dos_of bytes.now at)) }
    ensures halves { halves.new ≡ halves_of (header_or_zeros (read_dos_of bytes.now at)) }
    ensures pointer { pe_pointer.new ≡ (header_or_zeros (read_dos_of bytes.now at)).pe_pointer }
{
    match pe_dos::read(bytes, at) {
        Ok(header) => {
            *halves = halves_of(header);
            *pe_pointer = header.pe_pointer;
            0
        }
        Err(k) => {
            halves.fill(0);
            *pe_pointer = 0;
            k.into()
        }
    }
}

// Writes a DOS header at `at`.
#[unsafe(no_mangle)]
pub extern "C" fn hullsift_write_dos_header(
    bytes: &mut [u8],
    at: usize,
    halves: &[u16; 30],
    pe_pointer: u32,
) -> u8
    ensures answer { result ≡ number (answer_write_bytes (write_dos_of bytes.old at (dos_header_of halves.now pe_pointer))) }
    ensures lent { bytes.new ≡ write_dos_out bytes.old at (dos_header_of halves.now pe_pointer) }
{
    c_numbers::number(pe_dos::write(bytes, at, dos_header_of(halves, pe_pointer)))
}

// The COFF header at `at`.
#[unsafe(no_mangle)]
pub extern "C" fn hullsift_read_coff_header(bytes: &[u8], at: usize, out: &mut [u64; 7]) -> u8
    ensures answer { result ≡ number (answer_read_coff_header (read_coff_of bytes.now at)) }
    ensures values { out.new ≡ values count_read_coff_header (answer_read_coff_header (read_coff_of bytes.now at)) }
{
    c_numbers::store(pe_coff::read(bytes, at), out)
}

// The needed fields of the optional header at `at`, whose stated size is `size`.
#[unsafe(no_mangle)]
pub extern "C" fn hullsift_read_optional_header(
    bytes: &[u8],
    at: usize,
    size: usize,
    out: &mut [u64; 5],
) -> u8
    ensures answer { result ≡ number (answer_read_optional_header (read_optional_of bytes.now at size)) }
    ensures values { out.new ≡ values count_read_optional_header (answer_read_optional_header (read_optional_of bytes.now at size)) }
{
    c_numbers::store(pe_optional::read(bytes, at, size), out)
}

// What the headers of an image say, all header and section checks made.
#[unsafe(no_mangle)]
pub extern "C" fn hullsift_pe_open(file: &[u8], out: &mut [u64; 11]) -> u8
    ensures answer { result ≡ number (answer_open_header (open_of file.now)) }
    ensures values { out.new ≡ values count_open_header (answer_open_header (open_of file.now)) }
{
    c_numbers::store(pe_header::open(file), out)
}

// The row at an index of the section table.
#[unsafe(no_mangle)]
pub extern "C" fn hullsift_section(
    file: &[u8],
    table: usize,
    count: usize,
    index: usize,
    out: &mut [u64; 10],
) -> u8
    ensures answer { result ≡ number (answer_read_section_table (get_row_of file.now table count index)) }
    ensures values { out.new ≡ values count_read_section_table (answer_read_section_table (get_row_of file.now table count index)) }
{
    c_numbers::store(pe_section::get_row(file, table, count, index), out)
}

// The file offset of an address.
#[unsafe(no_mangle)]
pub extern "C" fn hullsift_find_offset(
    file: &[u8],
    sections: &[u64; 3],
    address: u64,
    out: &mut [u64; 1],
) -> u8
    ensures answer { result ≡ number (answer_find_offset (find_offset_of file.now (read_sections_of sections.now) address)) }
    ensures values { out.new ≡ values count_find_offset (answer_find_offset (find_offset_of file.now (read_sections_of sections.now) address)) }
{
    let sections = c_sections::read_sections(sections);
    c_numbers::store(pe_mapping::find_offset(file, sections, address), out)
}

fn dos_header_of(halves: &[u16; 30], pe_pointer: u32) -> DosHeader
    ensures { result ≡ dos_header_of halves.now pe_pointer }
{
    DosHeader {
        signature: halves[0],
        bytes_on_last_page: halves[1],
        pages_in_file: halves[2],
        relocations: halves[3],
        size_of_header_in_paragraphs: halves[4],
        minimum_extra_paragraphs_needed: halves[5],
        maximum_extra_paragraphs_needed: halves[6],
        initial_relative_ss: halves[7],
        initial_sp: halves[8],
        checksum: halves[9],
        initial_ip: halves[10],
        initial_relative_cs: halves[11],
        file_address_of_relocation_table: halves[12],
        overlay_number: halves[13],
        reserved: [halves[14], halves[15], halves[16], halves[17]],
        oem_id: halves[18],
        oem_info: halves[19],
        reserved2: [
            halves[20], halves[21], halves[22], halves[23], halves[24], halves[25], halves[26],
            halves[27], halves[28], halves[29],
        ],
        pe_pointer,
    }
}

fn halves_of(h: DosHeader) -> [u16; 30]
    ensures { result ≡ halves_of h }
{
    let a = h.reserved;
    let b = h.reserved2;
    [
        h.signature,
        h.bytes_on_last_page,
        h.pages_in_file,
        h.relocations,
        h.size_of_header_in_paragraphs,
        h.minimum_extra_paragraphs_needed,
        h.maximum_extra_paragraphs_needed,
        h.initial_relative_ss,
        h.initial_sp,
        h.checksum,
        h.initial_ip,
        h.initial_relative_cs,
        h.file_address_of_relocation_table,
        h.overlay_number,
        a[0],
        a[1],
        a[2],
        a[3],
        h.oem_id,
        h.oem_info,
        b[0],
        b[1],
        b[2],
        b[3],
        b[4],
        b[5],
        b[6],
        b[7],
        b[8],
        b[9],
    ]
}
