//! The numbers of the tables (ECMA-335 II.22).

ghost use Rattle.std.specs.Prelude.{◌≡◌, map};
ghost use Rattle.md_schema.specs.Schema.{tables};

pub const MODULE: u8 = 0x00;

pub const TYPE_REF: u8 = 0x01;

pub const TYPE_DEF: u8 = 0x02;

pub const FIELD: u8 = 0x04;

pub const METHOD_DEF: u8 = 0x06;

pub const PARAM: u8 = 0x08;

pub const INTERFACE_IMPL: u8 = 0x09;

pub const MEMBER_REF: u8 = 0x0a;

pub const CONSTANT: u8 = 0x0b;

pub const CUSTOM_ATTRIBUTE: u8 = 0x0c;

pub const FIELD_MARSHAL: u8 = 0x0d;

pub const DECL_SECURITY: u8 = 0x0e;

pub const CLASS_LAYOUT: u8 = 0x0f;

pub const FIELD_LAYOUT: u8 = 0x10;

pub const STAND_ALONE_SIG: u8 = 0x11;

pub const EVENT_MAP: u8 = 0x12;

pub const EVENT: u8 = 0x14;

pub const PROPERTY_MAP: u8 = 0x15;

pub const PROPERTY: u8 = 0x17;

pub const METHOD_SEMANTICS: u8 = 0x18;

pub const METHOD_IMPL: u8 = 0x19;

pub const MODULE_REF: u8 = 0x1a;

pub const TYPE_SPEC: u8 = 0x1b;

pub const IMPL_MAP: u8 = 0x1c;

pub const FIELD_RVA: u8 = 0x1d;

pub const ASSEMBLY: u8 = 0x20;

pub const ASSEMBLY_PROCESSOR: u8 = 0x21;

pub const ASSEMBLY_OS: u8 = 0x22;

pub const ASSEMBLY_REF: u8 = 0x23;

pub const ASSEMBLY_REF_PROCESSOR: u8 = 0x24;

pub const ASSEMBLY_REF_OS: u8 = 0x25;

pub const FILE: u8 = 0x26;

pub const EXPORTED_TYPE: u8 = 0x27;

pub const MANIFEST_RESOURCE: u8 = 0x28;

pub const NESTED_CLASS: u8 = 0x29;

pub const GENERIC_PARAM: u8 = 0x2a;

pub const METHOD_SPEC: u8 = 0x2b;

pub const GENERIC_PARAM_CONSTRAINT: u8 = 0x2c;

/// Returns the numbers of the tables, in rising order.
pub fn numbers() -> &'static [u8]
    ensures { result.now ≡ map (λ table. table.number) tables }
{
    &[
        MODULE,
        TYPE_REF,
        TYPE_DEF,
        FIELD,
        METHOD_DEF,
        PARAM,
        INTERFACE_IMPL,
        MEMBER_REF,
        CONSTANT,
        CUSTOM_ATTRIBUTE,
        FIELD_MARSHAL,
        DECL_SECURITY,
        CLASS_LAYOUT,
        FIELD_LAYOUT,
        STAND_ALONE_SIG,
        EVENT_MAP,
        EVENT,
        PROPERTY_MAP,
        PROPERTY,
        METHOD_SEMANTICS,
        METHOD_IMPL,
        MODULE_REF,
        TYPE_SPEC,
        IMPL_MAP,
        FIELD_RVA,
        ASSEMBLY,
        ASSEMBLY_PROCESSOR,
        ASSEMBLY_OS,
        ASSEMBLY_REF,
        ASSEMBLY_REF_PROCESSOR,
        ASSEMBLY_REF_OS,
        FILE,
        EXPORTED_TYPE,
        MANIFEST_RESOURCE,
        NESTED_CLASS,
        GENERIC_PARAM,
        METHOD_SPEC,
        GENERIC_PARAM_CONSTRAINT,
    ]
}
