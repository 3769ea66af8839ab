// The functions and types that vectors name.
use scalars::IonType;

#[derive(Clone, Copy, PartialEq, Eq)]
pub(crate) enum Function {
    VarUint,
    VarInt,
    Uint,
    FixedUint,
    Magnitude,
    Int,
    IntU64,
    Header,
    Annotations,
    IsUtf8,
    WriteNull,
    WriteBool,
    WriteI64,
    WriteInt,
    WriteF32,
    WriteF64,
    WriteDecimal,
    WriteTimestamp,
    WriteSymbol,
    WriteString,
    WriteClob,
    WriteBlob,
    Fill,
}

// A word that names none of them.
#[derive(Clone, Copy)]
pub(crate) struct NoFunction;

impl TryFrom<&[u8]> for Function {
    type Error = NoFunction;

    fn try_from(name: &[u8]) -> Result<Self, NoFunction> {
        Ok(match name {
            b"var_uint" => Function::VarUint,
            b"var_int" => Function::VarInt,
            b"uint" => Function::Uint,
            b"fixed_uint" => Function::FixedUint,
            b"magnitude" => Function::Magnitude,
            b"int" => Function::Int,
            b"int_u64" => Function::IntU64,
            b"header" => Function::Header,
            b"annotations" => Function::Annotations,
            b"is_utf8" => Function::IsUtf8,
            b"write_null" => Function::WriteNull,
            b"write_bool" => Function::WriteBool,
            b"write_i64" => Function::WriteI64,
            b"write_int" => Function::WriteInt,
            b"write_f32" => Function::WriteF32,
            b"write_f64" => Function::WriteF64,
            b"write_decimal" => Function::WriteDecimal,
            b"write_timestamp" => Function::WriteTimestamp,
            b"write_symbol" => Function::WriteSymbol,
            b"write_string" => Function::WriteString,
            b"write_clob" => Function::WriteClob,
            b"write_blob" => Function::WriteBlob,
            b"fill" => Function::Fill,
            _ => return Err(NoFunction),
        })
    }
}

// The type that a null's word names. No `TryFrom`: neither the trait nor the type is this crate's.
pub(crate) fn ion_type(name: &[u8]) -> IonType {
    match name {
        b"bool" => IonType::Bool,
        b"int" => IonType::Int,
        b"float" => IonType::Float,
        b"decimal" => IonType::Decimal,
        b"timestamp" => IonType::Timestamp,
        b"symbol" => IonType::Symbol,
        b"string" => IonType::String,
        b"clob" => IonType::Clob,
        b"blob" => IonType::Blob,
        b"list" => IonType::List,
        b"sexp" => IonType::Sexp,
        b"struct" => IonType::Struct,
        _ => IonType::Null,
    }
}
