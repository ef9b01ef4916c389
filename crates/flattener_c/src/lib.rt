// The chart check and the flattener for C programs: each call of `flattener` under its name.
#![tactic(auto)]

ghost use Rattle.std.specs.Prelude.{◌≡◌};
ghost use Rattle.chart.specs.Chart.{class_of};
ghost use Rattle.chart.specs.Flat.{flattened};
ghost use Rattle.chart.specs.declared.read.Edition.TheVariants.{Guarded, Plain};

#[unsafe(no_mangle)]
pub extern "C" fn chart_check(chart: &[u8]) -> u32
    ensures { result ≡ class_of Plain chart.now }
{
    flattener::chart_check(chart)
}

#[unsafe(no_mangle)]
pub extern "C" fn chart_check_guarded(chart: &[u8]) -> u32
    ensures { result ≡ class_of Guarded chart.now }
{
    flattener::chart_check_guarded(chart)
}

#[unsafe(no_mangle)]
pub extern "C" fn chart_flatten(chart: &[u8], table: &mut [u8]) -> u32
    ensures { (result ≡ (flattened Plain chart.now table.old).0) × (table.new ≡ (flattened Plain chart.now table.old).1) }
{
    flattener::chart_flatten(chart, table)
}

#[unsafe(no_mangle)]
pub extern "C" fn chart_flatten_guarded(chart: &[u8], table: &mut [u8]) -> u32
    ensures { (result ≡ (flattened Guarded chart.now table.old).0) × (table.new ≡ (flattened Guarded chart.now table.old).1) }
{
    flattener::chart_flatten_guarded(chart, table)
}
