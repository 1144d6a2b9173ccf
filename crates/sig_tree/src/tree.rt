use cil_base::{Boxed, List, Token};

/// A type (ECMA-335 II.23.2.12). Tokens are of TypeDef, TypeRef or TypeSpec in a signature that can be spelled.
#[derive(Drop)]
#[cycle(tree)]
pub enum TypeSig {
    /// A type of one byte, by its element type: 01 to 0E, 16, 18, 19 or 1C (II.23.1.16).
    Prim(u8),
    Ptr(Boxed<TypeSig>),
    ByRef(Boxed<TypeSig>),
    Value(Token),
    Class(Token),
    /// A generic parameter of the type, counted from 0.
    Var(u32),
    /// A generic parameter of the method, counted from 0.
    MVar(u32),
    SzArray(Boxed<TypeSig>),
    Array {
        elem: Boxed<TypeSig>,
        rank: u32,
        sizes: List<u32>,
        lows: List<i32>,
    },
    Inst {
        value: bool,
        of: Token,
        args: List<TypeSig>,
    },
    FnPtr(Boxed<MethodSig>),
    /// A custom modifier before a type (II.23.2.7).
    Mod {
        required: bool,
        of: Token,
        inner: Boxed<TypeSig>,
    },
    Pinned(Boxed<TypeSig>),
}

/// Whether a method has generic parameters, and how many.
#[derive(Clone, Copy)]
pub enum Arity {
    Plain,
    Generic(u32),
}

/// Where the variable part of the arguments begins: before the parameter of that number, counted from 0. The number of
/// parameters stands for a sentinel after the last.
#[derive(Clone, Copy)]
pub enum Sentinel {
    None,
    Before(u32),
}

/// A method's signature (ECMA-335 II.23.2.1 to II.23.2.3).
#[derive(Drop)]
#[cycle(tree)]
pub struct MethodSig {
    /// The calling convention: 0 to 5, or 9.
    pub kind: u8,
    /// HASTHIS.
    pub this: bool,
    /// EXPLICITTHIS.
    pub explicit: bool,
    pub arity: Arity,
    pub ret: TypeSig,
    pub params: List<TypeSig>,
    pub sentinel: Sentinel,
}

/// A signature of any sort.
#[derive(Drop)]
pub enum SigTree {
    Method(MethodSig),
    Field(TypeSig),
    Locals(List<TypeSig>),
    Property {
        this: bool,
        ty: TypeSig,
        params: List<TypeSig>,
    },
    /// The arguments of a generic method (II.23.2.15).
    Inst(List<TypeSig>),
    /// A type alone, as in a TypeSpec row (II.23.2.14).
    Plain(TypeSig),
}
