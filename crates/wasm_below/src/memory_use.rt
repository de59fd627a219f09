ghost use Rattle.std.specs.Prelude.{Bool, true, false};

/// Whether reading a type allocates, as a type: `May` or `Never`.
pub trait MemoryUse {
    ghost TAKES: { Bool };

    const TAKES: bool;
}

/// Reading may allocate, and fail with `OutOfMemory`.
pub struct May;

pub struct Never;

impl MemoryUse for May {
    ghost TAKES = { true };

    const TAKES: bool = true;
}

impl MemoryUse for Never {
    ghost TAKES = { false };

    const TAKES: bool = false;
}

pub trait UsesMemory {
    type Memory: MemoryUse;
}

/// Whether reading a type allocates, as a constant.
pub trait TakesMemory {
    ghost TAKES_MEMORY: { Bool };

    const TAKES_MEMORY: bool;
}

impl<T: UsesMemory> TakesMemory for T {
    ghost TAKES_MEMORY = { T.Memory.TAKES };

    const TAKES_MEMORY: bool = <T::Memory as MemoryUse>::TAKES;
}
