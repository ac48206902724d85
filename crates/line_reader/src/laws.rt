//! Laws of lines.
ghost use Rattle.line_reader.specs.Lists.{HaveOneList};

/// Bytes have one list of lines.
pub fn bytes_have_one_list_of_lines(bytes: &[u8])
    //= Bytes have one list of lines.
    //= No body: a law over definitions, which has no body
    ensures { HaveOneList bytes.now }
{
    let _ = bytes;
}
